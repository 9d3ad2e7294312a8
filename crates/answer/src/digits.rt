// Digits and texts, as messages and table records write them.
ghost use Rattle.std.specs.Prelude.{◌≡◌, ◌<◌};
ghost use Rattle.answer.specs.Digits.{is_digit, is_text, digit_of, two_in, three_in};

// Whether `b` is a digit.
pub fn is_digit(b: u8) -> bool
    ensures { result ≡ is_digit b }
{
    matches!(b, 0x30..=0x39)
}

// Whether `b` is a byte of a text, 20h to 7Eh.
pub fn is_text(b: u8) -> bool
    ensures { result ≡ is_text b }
{
    matches!(b, 0x20..=0x7e)
}

// What a digit stands for: 30h to 39h are 0 to 9, which is what their low four bits are.
pub fn digit_of(b: u8) -> usize
    ensures { (result ≡ digit_of b) × (result < 256) }
{
    (b % 16) as usize
}

// The number that the two digits at the start of `s` write; none where it does not start with two. The two calls differ in their
// patterns and sums, which no count as a parameter makes one.
#[tactic(auto, unfolding(crate::specs::Digits::two_in))]
pub fn two_digits(s: &[u8]) -> Option<u8>
    ensures { result ≡ two_in s.now }
{
    match s {
        &[a, b, ..] if is_digit(a) & is_digit(b) => Some((digit_of(a) * 10 + digit_of(b)) as u8),
        _ => None,
    }
}

// The number that the three digits at the start of `s` write; none where it does not start with three.
#[tactic(auto, unfolding(crate::specs::Digits::three_in))]
pub fn three_digits(s: &[u8]) -> Option<usize>
    ensures { result ≡ three_in s.now }
{
    match s {
        &[a, b, c, ..] if is_digit(a) & (is_digit(b) & is_digit(c)) => {
            Some(digit_of(a) * 100 + digit_of(b) * 10 + digit_of(c))
        }
        _ => None,
    }
}
