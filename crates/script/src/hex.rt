// Bytes as a log shows them.
ghost use Rattle.std.specs.Prelude.{◌≡◌, ◌*◌, ◌<◌, true, length, Some, IsAscii};
ghost use Rattle.std.specs.Fmt.{digit_glyph};
ghost use Rattle.std.specs.List.{flat_map};
ghost use Rattle.script.specs.Shown.{shown, two_digits};

use std::{fmt, str};

// Shows bytes in hexadecimal: two upper-case digits for each, and `-` where there are none.
#[derive(Clone, Copy, Debug)]
pub struct Hex<'a>(pub &'a [u8]);

impl fmt::Display for Hex<'_> {
    ghost output = { λ hex. Some (shown hex.0.now) };

    // The digits of up to 64 bytes are put together before they are written, since a call of the formatter costs more than a byte's digits do.
    fn fmt<W: fmt::Write>(&self, f: &mut fmt::Formatter<W>) -> fmt::Result {
        if self.0.is_empty() {
            return f.write_str("-");
        }
        let mut room = [0u8; 128];
        for piece in self.0.chunks(64) {
            let digits = &mut room[..2 * piece.len()];
            put_digits(piece, digits);
            let Ok(text) = str::from_utf8(digits) else {
                unreachable!();
            };
            f.write_str(text)?;
        }
        Ok(())
    }
}

// Puts the two digits of each byte.
fn put_digits(bytes: &[u8], digits: &mut [u8])
    requires { length digits.old ≡ 2 * length bytes.now }
    ensures value { digits.new ≡ flat_map two_digits bytes.now }
    ensures ascii { IsAscii digits.new }
{
    for (i, b) in bytes.iter().enumerate() {
        digits[2 * i] = digit(b / 16);
        digits[2 * i + 1] = digit(b % 16);
    }
}

// The digit of a number below 16.
fn digit(n: u8) -> u8
    requires { n < 16 }
    ensures { result ≡ digit_glyph true n }
{
    if n < 10 { b'0' + n } else { b'A' + (n - 10) }
}
