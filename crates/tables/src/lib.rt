// A load of table records: adding a block to it, closing it, and the versions that it leaves (scope paper, section Commands).
// There is no command, no packet and no device in here.
#![tactic(auto)]

mod adding;
mod closing;
mod version;

pub use adding::add_block;
pub use closing::close_load;
pub use version::versions_after;

// How many bytes of a store its records take, and how many they are.
#[derive(Clone, Copy, Debug, PartialEq, Eq)]
pub struct Extent {
    pub used: usize,
    pub records: usize,
}

// The same of an open load's store, and whether a record did not fit.
#[derive(Clone, Copy, Debug, PartialEq, Eq)]
pub struct Load {
    pub used: usize,
    pub records: usize,
    pub over: bool,
}
