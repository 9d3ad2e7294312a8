// Closing a load: the new set takes the live store's place, or the live store stays (scope paper, section Commands, TLE).
ghost use Rattle.std.specs.Prelude.{◌≡◌, ◌+◌, ◌≤◌, length, take};
ghost use Rattle.records.specs.Store.{zeros};
ghost use Rattle.tables.specs.Closing.{Closes};
ghost use Rattle.tables.specs.Steps.{Stays, Compacts, Replaces, staying_bytes, moved, limits_kept};

use crate::{Extent, Load};
use answer::walk::pieces_of;
use records::{Record, record_at, zero_store};

// How many bytes and records of `bytes` stay when a load for `network` closes.
#[tactic(auto)]
fn staying(bytes: &[u8], network: u8) -> Extent
    ensures { Stays network bytes.now result }
{
    let mut used = 0;
    let mut records = 0;
    for piece in pieces_of::<Record>(bytes) {
        if !Record::of(piece).is_named(network) {
            used += piece.len();
            records += 1;
        }
    }
    Extent { used, records }
}

// Moves the `len` bytes at `from` down to `to`. One by one, which the compiler makes as many at a time as it can: a copy of the whole part would be a
// call of memmove, which the library for C asks of no one.
#[tactic(auto, using(crate::proofs::Moves::move_same, crate::proofs::Moves::move_turn))]
fn move_down(s: &mut [u8], to: usize, from: usize, len: usize)
    requires { (to ≤ from) × (from + len ≤ length s.old) }
    ensures { s.new ≡ moved s.old to from len }
{
    if to == from {
        return;
    }
    for j in 0..len {
        s[to + j] = s[from + j];
    }
}

// Moves the records of the first `used` bytes that stay down to the start, in order, and tells where they end. It goes by position,
// since it writes into the bytes that it walks.
#[tactic(auto, using(crate::proofs::Staying::pack_within, crate::proofs::Staying::pack_skip, crate::proofs::Staying::pack_keep, crate::proofs::Staying::pack_done))]
fn compact(live: &mut [u8], used: usize, network: u8) -> usize
    requires { used ≤ length live.old }
    ensures { Compacts network used live.old result live.new }
{
    let mut from = 0;
    let mut to = 0;
    while let Some(record) = record_at(&live[..used], from) {
        if !record.is_named(network) {
            move_down(live, to, from, record.size);
            to += record.size;
        }
        from += record.size;
    }
    to
}

// Whether what stays, with `n` bytes and the load's records more, passes no limit.
#[tactic(auto, unfolding(crate::specs::Steps::limits_kept))]
fn keeps_limits(size: usize, stays: Extent, n: usize, load: Load) -> bool
    ensures { result ≡ limits_kept size stays n load }
{
    !load.over
        && (stays.used <= size && n <= size - stays.used)
        && (stays.records <= 512 && load.records <= 512 - stays.records)
}

// Makes what stays and then `bytes` the live store, with zeros after them.
fn replace(live: &mut [u8], used: usize, network: u8, bytes: &[u8]) -> usize
    requires { (used ≤ length live.old) × (length (staying_bytes network (take used live.old)) + length bytes.now ≤ length live.old) }
    ensures { Replaces network used bytes.now live.old result live.new }
{
    let to = compact(live, used, network);
    let end = answer::put(live, to, bytes);
    zero_store(&mut live[end..]);
    end
}

// Makes the new set the live one where it passes no limit. Nothing is touched before its size is known.
#[tactic(auto, using(crate::proofs::Closings::has_place, crate::proofs::Closings::few))]
fn make_live(
    live: &mut [u8],
    loading: &[u8],
    extent: Extent,
    load: Load,
    network: u8,
) -> Option<Extent>
    ensures { Closes network extent load live.old loading.now result live.new (zeros (length loading.now)) }
{
    let used = extent.used.min(live.len());
    let n = load.used.min(loading.len());
    let stays = staying(&live[..used], network);
    if !keeps_limits(live.len(), stays, n, load) {
        return None;
    }
    let end = replace(live, used, network, &loading[..n]);
    Some(Extent {
        used: end,
        records: stays.records + load.records,
    })
}

// Makes the new set the live one where it passes no limit, and zeroes the loading store. Tells the extent of the new live store, and
// none where the live store stays.
pub fn close_load(
    live: &mut [u8],
    loading: &mut [u8],
    extent: Extent,
    load: Load,
    network: u8,
) -> Option<Extent>
    ensures { Closes network extent load live.old loading.old result live.new loading.new }
{
    let closed = make_live(live, loading, extent, load, network);
    zero_store(loading);
    closed
}
