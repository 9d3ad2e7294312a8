// The two walks of picking over a tag list: one measures, the other writes (scope paper, section Data objects).
ghost use Rattle.std.specs.Prelude.{◌≡◌, ◌≤◌, cond, ltb, length, Ok, Err};
ghost use Rattle.answer.specs.Laid.{Puts};
ghost use Rattle.answer.specs.declared.refusal.Refusal.TheVariants.{NoRoom};
ghost use Rattle.picking.specs.Claims.{pieces_picked};

use crate::shown::shown;
use answer::Refusal;
use answer::walk::pieces_of;
use objects::tags::Tag;

// Whether what is picked fits into so many bytes, so that refusal 1 is known before a byte changes. The room is compared at each match,
// so that no sum of lengths can wrap.
pub(crate) fn measure(tags: &[u8], objects: &[u8], mut room: usize) -> Result<(), Refusal>
    ensures { result ≡ cond (ltb room (length (pieces_picked tags.now objects.now))) (Err NoRoom) (Ok tt) }
{
    for tag in pieces_of::<Tag>(tags) {
        room = room
            .checked_sub(shown(objects, tag).len())
            .ok_or(Refusal::NoRoom)?;
    }
    Ok(())
}

// Writes what is picked to the start of `out`.
pub(crate) fn write(tags: &[u8], objects: &[u8], out: &mut [u8]) -> usize
    requires { length (pieces_picked tags.now objects.now) ≤ length out.old }
    ensures { Puts out.old 0 (pieces_picked tags.now objects.now) result out.new }
{
    let mut at = 0;
    for tag in pieces_of::<Tag>(tags) {
        at = answer::put(out, at, shown(objects, tag));
    }
    at
}
