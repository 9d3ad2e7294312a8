// The search for the nth parameter of a number.
ghost use Rattle.std.specs.Prelude.{◌≡◌};
ghost use Rattle.parameters.specs.Parameters.{parameters};
ghost use Rattle.parameters.specs.Finding.{numbered, nth, data_at, Part, Finds};

use crate::parameter::{parameter_at, two_at, whole_list};
use answer::Refusal;

// The data of the nth parameter of this number, counted from 1, as a part of `list` itself. Refusals in this order: 21, 24.
#[tactic(auto, unfolding(crate::specs::Finding::find, crate::specs::Finding::start_of))]
pub fn find<'a>(list: &'a [u8], number: u16, n: usize) -> Result<&'a [u8], Refusal>
    ensures { Finds list.entry number n result }
{
    if !whole_list(list) {
        return Err(Refusal::NoParameter);
    }
    find_nth(list, number, n)
}

// The same, in a list that is whole. By places, since the promise names the place where the data starts, which pieces do not tell.
#[tactic(auto, using(crate::proofs::Parameters::parameter_found, answer::proofs::Found::found_none, crate::proofs::Finding::nth_zero, crate::proofs::Finding::nth_none, crate::proofs::Finding::nth_later, crate::proofs::Finding::numbered_none, crate::proofs::Finding::numbered_this, crate::proofs::Finding::numbered_other, crate::proofs::Finding::data_part, crate::proofs::Finding::nth_this, crate::proofs::Finding::data_this, crate::proofs::Finding::data_later, crate::proofs::Finding::data_other))]
fn find_nth<'a>(list: &'a [u8], number: u16, n: usize) -> Result<&'a [u8], Refusal>
    ensures { Part list.entry (nth n (numbered number (parameters list.entry.now))) (data_at number n 0 (parameters list.entry.now)) result }
{
    if n == 0 {
        return Err(Refusal::NotFound);
    }
    let mut left = n;
    let mut at = 0;
    while let Some(k) = parameter_at(list, at) {
        let end = at + k;
        if two_at(list, at) == number {
            if left == 1 {
                return Ok(&list[at + 4..end]);
            }
            left -= 1;
        }
        at = end;
    }
    Err(Refusal::NotFound)
}
