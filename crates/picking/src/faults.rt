// What is wrong with a tag list, and with an object list (scope paper, section Data objects).
ghost use Rattle.std.specs.Prelude.{◌≡◌, Ok};
ghost use Rattle.objects.specs.Object.{unless};
ghost use Rattle.picking.specs.Lists.{tags_refusal, objects_refusal};

use answer::Refusal;
use answer::walk::{is_whole, rest_of};
use objects::tags::Tag;
use objects::{Object, read_object};

// 30 where the bytes are not tags one after another.
#[tactic(auto, using(crate::proofs::Lists::tags_good, crate::proofs::Lists::tags_bad))]
pub(crate) fn check_tags(tags: &[u8]) -> Result<(), Refusal>
    ensures { result ≡ unless (tags_refusal tags.now) (Ok tt) }
{
    if is_whole::<Tag>(tags) {
        Ok(())
    } else {
        Err(Refusal::NoTag)
    }
}

// What is wrong with the first bad object, if one is. It stands where the objects stop.
#[tactic(auto, using(crate::proofs::Lists::objects_good, crate::proofs::Lists::objects_bad, crate::proofs::Lists::objects_no))]
pub(crate) fn check_objects(objects: &[u8]) -> Result<(), Refusal>
    ensures { result ≡ unless (objects_refusal objects.now) (Ok tt) }
{
    let left = rest_of::<Object>(objects);
    if !left.is_empty() {
        read_object(left)?;
    }
    Ok(())
}
