// What picking writes for one tag (scope paper, section Data objects).
ghost use Rattle.std.specs.Prelude.{◌≡◌, true};
ghost use Rattle.answer.specs.Pieces.{pieces};
ghost use Rattle.objects.specs.Tag.{is_tag};
ghost use Rattle.objects.specs.Object.{object_in, object_size};
ghost use Rattle.picking.specs.Pick.{is_withheld, same};
ghost use Rattle.picking.specs.Claims.{first_piece};

use answer::walk::pieces_of;
use objects::Object;

// Picking never writes an object of this tag: the two tracks and the card's number.
#[tactic(auto, using(crate::proofs::Same::long_shown), unfolding(crate::specs::Pick::is_withheld, crate::specs::Pick::same))]
pub(crate) fn withheld(tag: &[u8]) -> bool
    ensures { result ≡ is_withheld tag.now }
{
    matches!(tag, [0x56 | 0x57 | 0x5a])
}

// Whether an object has this tag, which is one byte or two. No tag is the start of another, so an object has the tag that it starts with.
// The bytes are compared by name: this is asked of each object for each tag, and to compare slices would be a call each time.
#[tactic(auto, using(crate::proofs::Same::has_one, crate::proofs::Same::has_two, crate::proofs::Same::has_not, crate::proofs::Same::has_other, crate::proofs::Same::one_or_two))]
fn has_tag(object: &[u8], tag: &[u8]) -> bool
    requires { is_tag tag.now ≡ true }
    ensures { result ≡ same tag.now (object_in object.now).tag }
{
    match (tag, object) {
        ([a], [x, ..]) => a == x,
        ([a, b], [x, y, ..]) => a == x && b == y,
        _ => false,
    }
}

// The first of the objects with this tag, as it stands; nothing where there is none, and where it is withheld.
#[tactic(auto, using(crate::proofs::Same::shown_none))]
pub(crate) fn shown<'a>(objects: &'a [u8], tag: &[u8]) -> &'a [u8]
    requires { is_tag tag.now ≡ true }
    ensures { result.now ≡ first_piece tag.now (pieces object_size objects.now) }
{
    if withheld(tag) {
        return &[];
    }
    pieces_of::<Object>(objects)
        .find(|object| has_tag(object, tag))
        .unwrap_or(&[])
}
