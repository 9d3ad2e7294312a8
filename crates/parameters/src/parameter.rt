// A parameter list, walked from parameter to parameter.
ghost use Rattle.std.specs.Prelude.{◌≡◌, ◌+◌, ◌≤◌, length, drop};
ghost use Rattle.answer.specs.Pieces.{found};
ghost use Rattle.parameters.specs.Parameters.{two_at, parameter_in, whole_list};

use answer::walk::{Piece, is_whole};

// A parameter: its number, its data's length and the data.
pub struct Parameter;

impl Piece for Parameter {
    ghost use Rattle.parameters.specs.Within.{parameter_le};

    ghost size = { parameter_in };

    #[tactic(auto, unfolding(crate::specs::Parameters::parameter_in))]
    fn size_in(s: &[u8]) -> Option<usize> {
        if s.len() < 4 {
            return None;
        }
        let n = 4 + two_at(s, 2) as usize;
        if n <= s.len() { Some(n) } else { None }
    }

    ghost within = { parameter_le };
}

// The two bytes at `at` as a number, the high one first.
pub(crate) fn two_at(s: &[u8], at: usize) -> u16
    requires { at + 2 ≤ length s.now }
    ensures { result ≡ two_at s.now at }
{
    u16::from_be_bytes([s[at], s[at + 1]])
}

// The size of the parameter at `at`; none where none stands there, and so past the end of `s`.
#[tactic(auto, unfolding(crate::specs::Parameters::parameter_in))]
pub fn parameter_at(s: &[u8], at: usize) -> Option<usize>
    ensures { result ≡ found (parameter_in (drop at s.now)) }
{
    Parameter::size_in(s.get(at..)?)
}

// Whether `list` is parameters and nothing else: a call of its own, as others promise by it.
pub fn whole_list(list: &[u8]) -> bool
    ensures { result ≡ whole_list list.now }
{
    is_whole::<Parameter>(list)
}
