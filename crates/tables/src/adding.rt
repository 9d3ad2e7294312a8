// Adding the records of a block to an open load's store (scope paper, section Commands).
ghost use Rattle.std.specs.Prelude.{◌≡◌};
ghost use Rattle.tables.specs.Loading.{Adds};
ghost use Rattle.tables.specs.Steps.{Stocks, StocksAll};

use crate::Load;
use answer::walk::pieces_of;
use records::{Record, block_good};

// Puts one record behind the used bytes of the load's store, or marks the load as over.
#[tactic(auto, using(answer::proofs::Laid::put_fits), unfolding(crate::specs::Loading::stock_one, crate::specs::Loading::has_room))]
fn add_record(store: &mut [u8], load: Load, rec: &[u8]) -> Load
    ensures { Stocks load rec.now store.old result store.new }
{
    let has_room = load.used <= store.len() && rec.len() <= store.len() - load.used;
    if load.over | (512 <= load.records) | !has_room {
        return Load { over: true, ..load };
    }
    let used = answer::put(store, load.used, rec);
    Load {
        used,
        records: load.records + 1,
        ..load
    }
}

// Adds those of the records that a load for `network` takes, in order.
#[tactic(auto, using(crate::proofs::Stocking::left_none, crate::proofs::Stocking::adds_by))]
fn add_records(store: &mut [u8], load: Load, network: u8, records: &[u8]) -> Load
    ensures { StocksAll network load records.now store.old result store.new }
{
    let mut grown = load;
    for bytes in pieces_of::<Record>(records) {
        if Record::of(bytes).is_taken(network) {
            grown = add_record(store, grown, bytes);
        }
    }
    grown
}

// Adds what a load for `network` takes of `block`: its records, in order, and nothing where the block is bad.
#[tactic(auto, using(crate::proofs::Stocking::good_long, answer::proofs::Parts::rest_part), unfolding(crate::specs::Loading::taken_of, crate::specs::Loading::stock_all))]
pub fn add_block(store: &mut [u8], load: Load, network: u8, block: &[u8]) -> Load
    ensures { Adds network load block.now store.old result store.new }
{
    if !block_good(block) {
        return load;
    }
    add_records(store, load, network, &block[2..])
}
