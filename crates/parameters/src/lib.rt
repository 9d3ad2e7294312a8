// Parameter lists: walked, judged and searched (scope paper, section Blocks and parameters).
#![tactic(auto)]

mod parameter;
mod search;

ghost use Rattle.std.specs.Prelude.{◌≡◌};
ghost use Rattle.parameters.specs.Finding.{find, Handed, refusal_of};

use answer::Refusal;
pub use parameter::{Parameter, parameter_at, whole_list};
pub use search::find;

// What `find` finds; an empty part at the list's start where it refuses. It stands beside `find` for callers of a call that never fails.
#[tactic(auto, using(crate::proofs::Finding::start_lost))]
pub fn find_parameter<'a>(list: &'a [u8], number: u16, n: usize) -> &'a [u8]
    ensures { Handed list.entry number n result }
{
    find(list, number, n).unwrap_or(&list[..0])
}

// The refusal of `find` for the same inputs; none where it found one. It goes with `find_parameter`.
pub fn find_refusal(list: &[u8], number: u16, n: usize) -> Option<Refusal>
    ensures { result ≡ refusal_of (find list.now number n) }
{
    find(list, number, n).err()
}
