// EMV data objects picked from a list by a list of tags (scope paper, section Data objects).
#![tactic(auto)]

mod faults;
mod shown;
mod walk;

ghost use Rattle.answer.specs.Answers.{Gives};
ghost use Rattle.picking.specs.Pick.{pick};

use answer::Refusal;

// Writes, for each tag of the list `tags` in order, the first object of the list `objects` with that tag to the start of `out`. Tags that
// are absent, and the objects that are withheld, write nothing. Refusals in this order: 30 for the tags, 30 to 32 for the objects, 1.
#[tactic(auto, unfolding(crate::specs::Pick::pick))]
pub fn pick(tags: &[u8], objects: &[u8], out: &mut [u8]) -> Result<usize, Refusal>
    ensures { Gives (pick tags.now objects.now) out.old result out.new }
{
    faults::check_tags(tags)?;
    faults::check_objects(objects)?;
    walk::measure(tags, objects, out.len())?;
    Ok(walk::write(tags, objects, out))
}
