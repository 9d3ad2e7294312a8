// Length forms, read and written (scope paper, section Data objects).
ghost use Rattle.std.specs.Prelude.{◌≡◌, ◌≤◌, length};
ghost use Rattle.answer.specs.Laid.{PutIf};
ghost use Rattle.objects.specs.LengthForm.{form_at, form_of};

// A length form: how many bytes it has, and the length that it tells.
#[derive(Clone, Copy)]
pub(crate) struct Form {
    pub(crate) size: usize,
    pub(crate) value: usize,
}

// The length form that `p` starts with.
#[tactic(auto, using(crate::proofs::LengthForms::no_high), unfolding(crate::specs::LengthForm::form_at, crate::specs::LengthForm::after81, crate::specs::LengthForm::after82))]
pub(crate) fn form_at(p: &[u8]) -> Option<Form>
    ensures { result ≡ form_at p.now }
{
    let (size, value) = match p {
        [n, ..] if *n < 0x80 => (1, u16::from(*n)),
        [0x81, n, ..] if *n >= 0x80 => (2, u16::from(*n)),
        [0x82, high, low, ..] if *high != 0 => (3, u16::from_be_bytes([*high, *low])),
        _ => return None,
    };
    Some(Form {
        size,
        value: usize::from(value),
    })
}

// How many bytes the one form of a length has.
#[tactic(auto, unfolding(crate::specs::LengthForm::form_of))]
pub(crate) fn form_size(n: u16) -> usize
    ensures { (result ≡ length (form_of n)) × (result ≤ 3) }
{
    match n {
        0x00..=0x7f => 1,
        0x80..=0xff => 2,
        _ => 3,
    }
}

// Puts the form of the length `n` at `at`.
#[tactic(auto, unfolding(crate::specs::LengthForm::form_of))]
pub(crate) fn put_form(out: &mut [u8], at: usize, n: u16) -> usize
    ensures { PutIf out.old at (form_of n) result out.new }
{
    let [high, low] = n.to_be_bytes();
    match n {
        0x00..=0x7f => answer::put(out, at, &[low]),
        0x80..=0xff => answer::put(out, at, &[0x81, low]),
        _ => answer::put(out, at, &[0x82, high, low]),
    }
}
