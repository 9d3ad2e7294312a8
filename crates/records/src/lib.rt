// Table records: where one stands and what it is, and whether bytes are records as a whole, in a block or in a store (scope paper, section Commands).
// There is no open load, no command and no device in here.
#![tactic(auto)]

mod checking;
mod record;

ghost use Rattle.std.specs.Prelude.{◌≡◌, length};
ghost use Rattle.records.specs.Store.{zeros};

pub use checking::{block_good, check_store, rest_is_zero};
pub use record::{Record, record_at};

// Sets every byte of a store to zero: a load that is dropped, or a fresh store.
pub fn zero_store(store: &mut [u8])
    ensures { store.new ≡ zeros (length store.old) }
{
    store.fill(0);
}
