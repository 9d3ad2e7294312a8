// What the programs that run a script of standard input share: they read it whole, and log bytes in hexadecimal.
#![tactic(auto)]

mod hex;
mod reading;

pub use hex::Hex;
pub use reading::read_full;
