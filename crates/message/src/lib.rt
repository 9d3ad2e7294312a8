// Messages of a head and blocks that hold a parameter list (scope paper, section Blocks and parameters).
#![tactic(auto)]

mod block;
mod fill;
mod head;

ghost use Rattle.std.specs.Prelude.{◌≡◌, ◌≤◌, length};
ghost use mathlib.Core.List.{flatten};
ghost use Rattle.answer.specs.Answers.{Gives};
ghost use Rattle.message.specs.Blocks.{fill};
ghost use Rattle.message.specs.Message.{framed, list_read, read_message, message_of, message_sized, write_message};

use answer::Refusal;
use answer::walk::is_whole;

// ---- the reader

// Joins the blocks of a message to one parameter list at the start of `out`. The caller says whether the message is a response or a
// command. Refusals in this order: 11, 20, 21, 1.
#[tactic(auto, using(crate::proofs::Heads::framed_room), unfolding(crate::specs::Message::read_message))]
pub fn read_message(message: &[u8], response: bool, out: &mut [u8]) -> Result<usize, Refusal>
    ensures { Gives (read_message response message.now) out.old result out.new }
{
    if 2048 < message.len() {
        return Err(Refusal::TooLong);
    }
    if !is_framed(message, response) {
        return Err(Refusal::NoMessage);
    }
    read_body(&message[head::head_length(response)..], out)
}

// Whether `message` is a head, and then blocks and nothing else.
#[tactic(auto, unfolding(crate::specs::Message::head_good))]
fn is_framed(message: &[u8], response: bool) -> bool
    ensures { result ≡ framed response message.now }
{
    let n = head::head_length(response);
    if message.len() < n {
        return false;
    }
    let (head, body) = message.split_at(n);
    head::head_good(head, response) & is_whole::<block::Block>(body)
}

// Gives the list that the blocks of `body` hold. Its length is known before a byte is written, since a refusal leaves `out` as it was.
fn read_body(body: &[u8], out: &mut [u8]) -> Result<usize, Refusal>
    ensures { Gives (list_read body.now) out.old result out.new }
{
    if !block::whole_lists(body) {
        return Err(Refusal::NoParameter);
    }
    let length = block::joined_length(body);
    if out.len() < length {
        return Err(Refusal::NoRoom);
    }
    block::join(body, out);
    Ok(length)
}

// ---- the writer

// Writes the message of a head and a parameter list to the start of `out`. The caller says whether it is the head of a response or of a
// command. Refusals in this order: 20, 21, 22, 23, 1.
#[tactic(auto, using(crate::proofs::Heads::head_six, crate::proofs::Judging::write_unheld, crate::proofs::Judging::write_held), unfolding(crate::specs::Message::write_message))]
pub fn write_message(
    head: &[u8],
    response: bool,
    list: &[u8],
    out: &mut [u8],
) -> Result<usize, Refusal>
    ensures { Gives (write_message head.now response list.now) out.old result out.new }
{
    if !head::head_good(head, response) {
        return Err(Refusal::NoMessage);
    }
    let blocks = fill::measure(list)?;
    write_good(head, list, blocks, out)
}

// Gives the message of a good head and of a list that its blocks hold to its end. A list over 2,048 bytes is refused first, so that the
// sum cannot wrap.
#[tactic(auto, using(crate::proofs::Filling::fill_few, crate::proofs::Judging::message_long))]
fn write_good(head: &[u8], list: &[u8], blocks: usize, out: &mut [u8]) -> Result<usize, Refusal>
    requires { (length head.now ≤ 6) × (length (flatten (fill list.now)) ≡ length list.now) × (blocks ≡ length (fill list.now)) }
    ensures { Gives (message_sized (message_of head.now list.now)) out.old result out.new }
{
    if 2048 < list.len() {
        return Err(Refusal::LongMessage);
    }
    let n = head.len() + list.len() + 3 * blocks;
    if 2048 < n {
        return Err(Refusal::LongMessage);
    }
    if out.len() < n {
        return Err(Refusal::NoRoom);
    }
    let at = answer::put(out, 0, head);
    fill::put_blocks(list, out, at);
    Ok(n)
}
