// Blocks, filled with the parameters of a list and written.
ghost use mathlib.Core.List.{map, flatten};
ghost use Rattle.std.specs.Prelude.{◌≡◌, ◌+◌, ◌≤◌, length, cond, Result, Ok, Err};
ghost use Rattle.answer.specs.declared.refusal.Refusal.TheVariants.{NoParameter, LongParameter};
ghost use Rattle.answer.specs.Laid.{Puts};
ghost use Rattle.parameters.specs.Parameters.{whole_list};
ghost use Rattle.message.specs.Blocks.{block_of, first_in, fill};
ghost use Rattle.message.specs.Steps.{measured, unheld};
ghost use Rattle.message.specs.Within.{first_le};

use answer::Refusal;
use answer::walk::{Piece, pieces_of};
use parameters::{Parameter, whole_list};

// What goes into one block of a list that is written: its next parameters, as many as have room.
struct Filled;

impl Piece for Filled {
    ghost size = { first_in };

    #[tactic(auto, using(crate::proofs::Filling::filled_on, crate::proofs::Filling::filled_over, crate::proofs::Filling::filled_none), unfolding(crate::specs::Blocks::first_in))]
    fn size_in(list: &[u8]) -> Option<usize> {
        let mut n = 0;
        for parameter in pieces_of::<Parameter>(list) {
            let more = n + parameter.len();
            if 999 < more {
                break;
            }
            n = more;
        }
        if n == 0 { None } else { Some(n) }
    }

    ghost within = { first_le };
}

// How many blocks a list fills. They end before the first parameter that is broken or too long for a block, and the list is refused.
#[tactic(auto, using(crate::proofs::Filling::count_more, crate::proofs::Filling::part_more, crate::proofs::Filling::fill_few, crate::proofs::Filling::part_le))]
pub(crate) fn measure(list: &[u8]) -> Result<usize, Refusal>
    ensures { result ≡ measured list.now }
{
    let mut blocks = 0;
    let mut end = 0;
    for part in pieces_of::<Filled>(list) {
        blocks += 1;
        end += part.len();
    }
    if end == list.len() {
        Ok(blocks)
    } else {
        Err(list_refusal(list))
    }
}

// Why a list is refused that its blocks do not hold to its end.
fn list_refusal(list: &[u8]) -> Refusal
    ensures { result ≡ unheld list.now }
{
    if whole_list(list) {
        Refusal::LongParameter
    } else {
        Refusal::NoParameter
    }
}

// Puts the block that holds `s` at `at` and tells the place after it.
fn put_block(out: &mut [u8], at: usize, s: &[u8]) -> usize
    requires { (length s.now ≤ 999) × (at + length (block_of s.now) ≤ length out.old) }
    ensures { Puts out.old at (block_of s.now) result out.new }
{
    let n = s.len();
    let digits = [
        (0x30 + n / 100) as u8,
        (0x30 + n / 10 % 10) as u8,
        (0x30 + n % 10) as u8,
    ];
    let at = answer::put(out, at, &digits);
    answer::put(out, at, s)
}

// Puts the blocks that `list` fills at `start`.
pub(crate) fn put_blocks(list: &[u8], out: &mut [u8], start: usize) -> usize
    requires { start + length (flatten (map block_of (fill list.now))) ≤ length out.old }
    ensures { Puts out.old start (flatten (map block_of (fill list.now))) result out.new }
{
    let mut at = start;
    for part in pieces_of::<Filled>(list) {
        at = put_block(out, at, part);
    }
    at
}
