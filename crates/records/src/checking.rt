// Checking bytes that are to be records: a store that is handed in, and a block of a load (scope paper, section Commands, and refusal 3).
ghost use Rattle.std.specs.Prelude.{◌≡◌, drop};
ghost use Rattle.records.specs.Record.{good_block};
ghost use Rattle.records.specs.Store.{all_zero, sound_store};
ghost use Rattle.records.specs.Steps.{passes, records_good};

use crate::Record;
use answer::digits::two_digits;
use answer::walk::pieces_of;

// Whether the bytes from `used` on are all zero. They are joined with no test between, so that many are taken at a time.
#[tactic(auto, using(crate::proofs::Checks::zero_more, crate::proofs::Checks::zero_done, crate::proofs::Checks::zero_past, answer::proofs::Parts::rest_part))]
pub fn rest_is_zero(store: &[u8], used: usize) -> bool
    ensures { result ≡ all_zero (drop used store.now) }
{
    let Some(rest) = store.get(used..) else {
        return true;
    };
    let mut joined = 0u8;
    for &b in rest {
        joined |= b;
    }
    joined == 0
}

// Whether a load takes the record; where no network is given, any record will do.
#[tactic(auto, unfolding(crate::specs::Steps::passes, crate::specs::Record::takes))]
fn passes(bytes: &[u8], network: Option<u8>) -> bool
    ensures { result ≡ passes network bytes.now }
{
    network.is_none_or(|network| Record::of(bytes).is_taken(network))
}

// Whether the bytes are whole records, as many as told, and, where a load is for a network, records that it takes. One pass, since
// a store is checked at each call.
#[tactic(auto, using(crate::proofs::Checks::good_end))]
fn records_good(bytes: &[u8], records: usize, network: Option<u8>) -> bool
    ensures { result ≡ records_good network records bytes.now }
{
    let mut seen = 0;
    let mut count = 0;
    for piece in pieces_of::<Record>(bytes) {
        if !passes(piece, network) {
            return false;
        }
        seen += piece.len();
        count += 1;
    }
    (seen == bytes.len()) & (count == records)
}

// Whether `store` is sound by its used bytes and the number of its records; `network` is that of the open load, or 0 for the live store.
#[tactic(auto, unfolding(crate::specs::Store::sound_store, crate::specs::Steps::records_good, crate::specs::Steps::passes))]
pub fn check_store(store: &[u8], used: usize, records: usize, network: u8) -> bool
    ensures { result ≡ sound_store network used records store.now }
{
    if store.len() < used {
        return false;
    }
    if 512 < records {
        return false;
    }
    if !records_good(&store[..used], records, Some(network)) {
        return false;
    }
    rest_is_zero(store, used)
}

// Whether `block`, a count and then records, is good as a whole.
#[tactic(auto, using(crate::proofs::Checks::block_not, crate::proofs::Checks::block_is, crate::proofs::Checks::block_one), unfolding(crate::specs::Record::good_block))]
pub fn block_good(block: &[u8]) -> bool
    ensures { result ≡ good_block block.now }
{
    if block.len() < 2 {
        return false;
    }
    let Some(count) = two_digits(block) else {
        return false;
    };
    (1 <= count) && records_good(&block[2..], count as usize, None)
}
