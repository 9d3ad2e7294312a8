// The fields of a line, each behind one space.
ghost use Rattle.std.specs.Prelude.{◌≡◌, ◌<◌, ◌≤◌, ◌*◌, length, IfSome};

use std::str;

// The longest field of bytes, and the largest buffer.
pub const LARGEST: usize = 8192;

// Room for the bytes of a line's fields, of which a call has two at most.
#[derive(Drop)]
pub struct Given {
    pub first: [u8; LARGEST],
    pub second: [u8; LARGEST],
}

impl Given {
    // With nothing in it yet.
    pub fn empty() -> Given {
        Given {
            first: [0; LARGEST],
            second: [0; LARGEST],
        }
    }
}

// What is left of a line.
#[derive(Drop)]
pub struct Fields<'a> {
    rest: &'a [u8],
}

impl<'a> Fields<'a> {
    // The fields that stand behind the letter of a call.
    pub fn of(rest: &'a [u8]) -> Fields<'a> {
        Fields { rest }
    }

    // Whether every field was taken.
    pub fn are_taken(&self) -> bool {
        self.rest.is_empty()
    }

    // The next field, as it is written.
    fn text(&mut self) -> Option<&'a [u8]> {
        let rest = self.rest.strip_prefix(b" ")?;
        let n = rest.iter().position(|b| *b == b' ').unwrap_or(rest.len());
        let (field, others) = rest.split_at(n);
        self.rest = others;
        Some(field)
    }

    // A number of one to five decimal digits.
    pub fn number(&mut self) -> Option<usize> {
        let field = self.text()?;
        if 5 < field.len() || !field.iter().all(|b| b.is_ascii_digit()) {
            return None;
        }
        str::from_utf8(field).ok()?.parse().ok()
    }

    // The size of a buffer.
    pub fn size(&mut self) -> Option<Size> {
        let size = self.number().filter(|n| *n <= LARGEST)?;
        Some(Size { size })
    }

    // A parameter's number.
    pub fn parameter_number(&mut self) -> Option<u16> {
        u16::try_from(self.number()?).ok()
    }

    // One digit, 1 for yes and 0 for no.
    pub fn flag(&mut self) -> Option<bool> {
        match self.text()? {
            b"0" => Some(false),
            b"1" => Some(true),
            _ => None,
        }
    }

    // Bytes in hexadecimal, or `-` for none. They are put at the start of `room`.
    pub fn bytes<'r>(&mut self, room: &'r mut [u8; LARGEST]) -> Option<&'r [u8]>
        ensures { IfSome result (λ bytes. length bytes.now ≤ 8192) }
    {
        match self.text()? {
            [] => None,
            b"-" => Some(&[]),
            digits => read(digits, room),
        }
    }
}

// The size of a buffer.
#[derive(Clone, Copy, Debug)]
pub struct Size {
    size: usize,
    ghost fits: { size ≤ 8192 },
}

impl Size {
    // A buffer of that size. Byte i is i % 251, so that the log shows which bytes the call has written.
    pub fn numbered(self, room: &mut [u8; LARGEST]) -> &mut [u8] {
        let out = &mut room[..self.size];
        for (b, n) in out.iter_mut().zip((0..=250u8).cycle()) {
            *b = n;
        }
        out
    }
}

// The bytes that the digits stand for, two digits for each.
fn read<'r>(digits: &[u8], room: &'r mut [u8; LARGEST]) -> Option<&'r [u8]>
    ensures length { IfSome result (λ bytes. 2 * length bytes.now ≡ length digits.now) }
    ensures in_bounds { IfSome result (λ bytes. length bytes.now ≤ 8192) }
{
    if digits.len() % 2 != 0 || 2 * LARGEST < digits.len() {
        return None;
    }
    let bytes = &mut room[..digits.len() / 2];
    for (b, pair) in bytes.iter_mut().zip(digits.chunks(2)) {
        *b = byte(pair)?;
    }
    Some(bytes)
}

// The byte that two digits stand for.
fn byte(pair: &[u8]) -> Option<u8> {
    match pair {
        [high, low] => Some(digit(*high)? * 16 + digit(*low)?),
        _ => None,
    }
}

// What a hexadecimal digit stands for.
fn digit(b: u8) -> Option<u8>
    ensures { IfSome result (λ d. d < 16) }
{
    match b {
        b'0'..=b'9' => Some(b - b'0'),
        b'A'..=b'F' => Some(b - b'A' + 10),
        _ => None,
    }
}
