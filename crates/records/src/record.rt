// One record: where it stands, and which loads take or name it (scope paper, section Commands).
ghost use Rattle.std.specs.Prelude.{◌≡◌, ◌<◌, get_or, drop};
ghost use Rattle.answer.specs.Digits.{digit_of};
ghost use Rattle.records.specs.Record.{record_in, record_as, found_in, takes_as, names_as};
ghost use Rattle.records.specs.Within.{record_le};

use answer::digits::{digit_of, is_text, three_digits, two_digits};
use answer::walk::Piece;

// A record that stands somewhere: how many bytes it has, its kind and its network. The kind is a byte as it came, which may be any;
// all that is asked of it is whether it is 31h to 33h.
#[derive(Clone, Copy, Debug, PartialEq, Eq)]
pub struct Record {
    pub size: usize,
    pub kind: u8,
    pub network: u8,
}

impl Piece for Record {
    ghost size = { record_in };

    #[tactic(auto, using(crate::proofs::Records::no_length, crate::proofs::Records::no_network, crate::proofs::Records::record_short, crate::proofs::Records::record_told))]
    fn size_in(s: &[u8]) -> Option<usize> {
        if s.len() < 8 {
            return None;
        }
        let n = three_digits(s)?;
        two_digits(&s[4..])?;
        (((8 <= n) & (n <= 997)) & ((n <= s.len()) & (is_text(s[6]) & is_text(s[7])))).then_some(n)
    }

    ghost within = { record_le };
}

// The byte at a place, 0 past the end.
fn byte_at(s: &[u8], at: usize) -> u8
    ensures { result ≡ get_or s.now at 0 }
{
    s.get(at).copied().unwrap_or(0)
}

// What the digit at a place stands for.
fn digit_at(s: &[u8], at: usize) -> usize
    ensures { (result ≡ digit_of (get_or s.now at 0)) × (result < 16) }
{
    digit_of(byte_at(s, at))
}

impl Record {
    // What a record's own bytes tell of it.
    pub fn of(bytes: &[u8]) -> Record
        ensures { result ≡ record_as bytes.now }
    {
        Record {
            size: digit_at(bytes, 0) * 100 + digit_at(bytes, 1) * 10 + digit_at(bytes, 2),
            kind: byte_at(bytes, 3),
            network: (digit_at(bytes, 4) * 10 + digit_at(bytes, 5)) as u8,
        }
    }

    // Whether a load for `network` takes the record.
    pub fn is_taken(self, network: u8) -> bool
        ensures { result ≡ takes_as network self.kind self.network }
    {
        ((0x31 <= self.kind) & (self.kind <= 0x33)) & ((self.network != 0) & self.is_named(network))
    }

    // Whether a load for `network` names the record's network.
    pub fn is_named(self, network: u8) -> bool
        ensures { result ≡ names_as network self.network }
    {
        (network == 0) | (self.network == network)
    }
}

// The record at `at`.
#[tactic(auto, using(crate::proofs::Records::found_no, crate::proofs::Records::found_yes, crate::proofs::Records::found_past, answer::proofs::Parts::rest_part))]
pub fn record_at(s: &[u8], at: usize) -> Option<Record>
    ensures { result ≡ found_in (drop at s.now) }
{
    let bytes = s.get(at..)?;
    Record::size_in(bytes)?;
    Some(Record::of(bytes))
}
