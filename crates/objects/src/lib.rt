// EMV data objects: one read, and one written (scope paper, section Data objects).
#![tactic(auto)]

mod forms;
pub mod tags;

ghost use Rattle.std.specs.Prelude.{◌≡◌};
ghost use Rattle.answer.specs.Answers.{Gives};
ghost use Rattle.answer.specs.Pieces.{found};
ghost use Rattle.objects.specs.Object.{object_size, read_of, write_object};
ghost use Rattle.objects.specs.Within.{object_within};

use answer::Refusal;
use answer::walk::Piece;

// The object at the start of some bytes: the lengths of its tag, of its header and of all of it.
#[derive(Clone, Copy, Debug, PartialEq, Eq)]
pub struct ObjectRead {
    pub tag: usize,
    pub header: usize,
    pub whole: usize,
}

// Objects as pieces of an object list.
pub struct Object;

impl Piece for Object {
    ghost size = { object_size };

    #[tactic(auto, using(crate::proofs::Reading::size_found, crate::proofs::Reading::size_lost))]
    fn size_in(s: &[u8]) -> Option<usize> {
        read_object(s).ok().map(|object| object.whole)
    }

    ghost within = { object_within };
}

// Reads the one object at the start of `input`; what follows it does not matter. Refusals in this order: 30, 31, 32.
// It is inlined, since a walk over a list asks for each object.
#[tactic(auto, using(crate::proofs::Reading::tag_lost, crate::proofs::Reading::tag_inside, crate::proofs::Reading::form_lost, crate::proofs::Reading::header_le, crate::proofs::Reading::value_cut, crate::proofs::Reading::object_found))]
#[inline]
pub fn read_object(input: &[u8]) -> Result<ObjectRead, Refusal>
    ensures { result ≡ read_of input.now }
{
    let tag = tags::tag_size(input).ok_or(Refusal::NoTag)?;
    let form = forms::form_at(&input[tag..]).ok_or(Refusal::NoLength)?;
    let header = tag + form.size;
    if input.len() - header < form.value {
        return Err(Refusal::CutValue);
    }
    Ok(ObjectRead {
        tag,
        header,
        whole: header + form.value,
    })
}

// Writes the object of this tag and value to the start of `out`. Refusals in this order: 30, 33, 1.
#[tactic(auto, using(crate::proofs::Objects::object_length, crate::proofs::Writing::writes_object), unfolding(crate::specs::Object::write_object))]
pub fn write_object(tag: &[u8], value: &[u8], out: &mut [u8]) -> Result<usize, Refusal>
    ensures { Gives (write_object tag.now value.now) out.old result out.new }
{
    if !tags::is_tag(tag) {
        return Err(Refusal::NoTag);
    }
    let n = u16::try_from(value.len()).map_err(|_| Refusal::LongValue)?;
    if out.len() < tag.len() + forms::form_size(n) + value.len() {
        return Err(Refusal::NoRoom);
    }
    let after_tag = answer::put(out, 0, tag);
    let after_form = forms::put_form(out, after_tag, n);
    Ok(answer::put(out, after_form, value))
}
