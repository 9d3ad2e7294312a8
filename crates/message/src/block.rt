// The blocks after a message's head, read: whether they are good, and what they hold.
ghost use Rattle.std.specs.Prelude.{◌≡◌, ◌≤◌, length, drop};
ghost use mathlib.Core.List.{flatten};
ghost use Rattle.answer.specs.Answers.{over};
ghost use Rattle.answer.specs.Pieces.{every};
ghost use Rattle.parameters.specs.Parameters.{whole_list};
ghost use Rattle.message.specs.Blocks.{block_in, blocks_of};
ghost use Rattle.message.specs.Within.{block_le};

use answer::digits::three_digits;
use answer::walk::{Piece, pieces_of};
use parameters::whole_list;

// A block: its length as three digits, 001 to 999, and that many bytes.
pub(crate) struct Block;

impl Piece for Block {
    ghost size = { block_in };

    #[tactic(auto, using(crate::proofs::Blocks::digits_low, crate::proofs::Blocks::block_then, crate::proofs::Blocks::block_else, crate::proofs::Blocks::digits_none))]
    fn size_in(s: &[u8]) -> Option<usize> {
        let held = three_digits(s)?;
        let n = 3 + held;
        if (1 <= held) & (n <= s.len()) {
            Some(n)
        } else {
            None
        }
    }

    ghost within = { block_le };
}

// What a block holds: what stands after its length.
fn held(block: &[u8]) -> &[u8]
    ensures { result.now ≡ drop 3 block.now }
{
    block.get(3..).unwrap_or(&[])
}

// Whether each block of `body` holds parameters and nothing else.
pub(crate) fn whole_lists(body: &[u8]) -> bool
    ensures { result ≡ every whole_list (blocks_of body.now) }
{
    pieces_of::<Block>(body).all(|block| whole_list(held(block)))
}

// How many bytes the blocks of `body` hold together. By a `for`, which knows that they fit: a sum after `map` would have to be told.
#[tactic(auto, using(crate::proofs::Blocks::joined_more, crate::proofs::Blocks::joined_le, crate::proofs::Blocks::held_none))]
pub(crate) fn joined_length(body: &[u8]) -> usize
    ensures { result ≡ length (flatten (blocks_of body.now)) }
{
    let mut sum = 0;
    for block in pieces_of::<Block>(body) {
        sum += held(block).len();
    }
    sum
}

// Puts what the blocks of `body` hold, joined, over the start of `out`.
pub(crate) fn join(body: &[u8], out: &mut [u8])
    requires { length (flatten (blocks_of body.now)) ≤ length out.old }
    ensures { out.new ≡ over (flatten (blocks_of body.now)) out.old }
{
    let mut at = 0;
    for block in pieces_of::<Block>(body) {
        at = answer::put(out, at, held(block));
    }
}
