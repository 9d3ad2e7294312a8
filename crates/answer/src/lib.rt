// What every codec call answers, and the one way in which it writes to the caller's buffer.
#![tactic(auto)]

pub mod digits;
mod refusal;
pub mod walk;

ghost use Rattle.std.specs.Prelude.{◌≡◌, ◌+◌, ◌≤◌, length};
ghost use Rattle.answer.specs.Answers.{Gives};
ghost use Rattle.answer.specs.Laid.{Puts, PutIf};

pub use refusal::Refusal;

// Gives `s` where there is room for it, and tells its length.
pub fn give(s: &[u8], out: &mut [u8]) -> Result<usize, Refusal>
    ensures { Gives (Ok s.now) out.old result out.new }
{
    if out.len() < s.len() {
        return Err(Refusal::NoRoom);
    }
    put_here(out, 0, s);
    Ok(s.len())
}

// Puts the bytes of `s` at `at`, where there is room for them. One by one, which the compiler makes as many at a time as it can: a copy of the whole
// slice would be a call of memmove, which the library for C asks of no one.
#[tactic(auto, using(crate::proofs::Laid::put_turn))]
fn put_here(out: &mut [u8], at: usize, s: &[u8]) -> usize
    requires { at + length s.now ≤ length out.old }
    ensures { Puts out.old at s.now result out.new }
{
    for (i, &b) in s.iter().enumerate() {
        out[at + i] = b;
    }
    at + s.len()
}

// Puts the bytes of `s` at `at` and tells the place after them. Where they do not fit nothing is put, and the place is `at`.
// A place beside the buffer and no cursor that holds both: of a buffer that a struct lends on, each promise would have to say that it is still the same.
pub fn put(out: &mut [u8], at: usize, s: &[u8]) -> usize
    ensures { PutIf out.old at s.now result out.new }
{
    if out.len() < at {
        return at;
    }
    if out.len() - at < s.len() {
        return at;
    }
    put_here(out, at, s)
}
