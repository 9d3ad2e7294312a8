// The calls of a script.
ghost use Rattle.std.specs.Prelude.{◌<◌, length, IfSome};

use answer::Refusal;
use board::Board;
use device::Taken;
use script::Hex;
use std::io;
use std::io::Write;

// A call.
#[derive(Clone, Copy, Debug)]
pub enum Call<'a> {
    // `B hi lo BYTES`
    Piece(&'a [u8]),
    // `T`
    Timeout,
    // `R`
    Restart,
}

impl<'a> Call<'a> {
    // The call that a script starts with, and what is left of the script; none where it starts with no call.
    pub fn first_of(script: &'a [u8]) -> Option<(Call<'a>, &'a [u8])>
        ensures { IfSome result (λ found. length found.1.now < length script.now) }
    {
        match script {
            [b'B', high, low, rest @ ..] => {
                let length = u16::from_be_bytes([*high, *low]);
                let (piece, others) = rest.split_at_checked(usize::from(length))?;
                Some((Call::Piece(piece), others))
            }
            [b'T', others @ ..] => Some((Call::Timeout, others)),
            [b'R', others @ ..] => Some((Call::Restart, others)),
            _ => None,
        }
    }

    // Makes the call and logs it. The only error, here and below, is that of a write: it ends the program, and nothing is said of the board after it.
    pub fn make<W: Write>(self, output: &mut W, board: &mut Board) -> io::Result<()> {
        match self {
            Call::Piece(piece) => offer(output, board, piece),
            Call::Timeout => {
                let number = number_of(board.timeout(&mut [0; 64]));
                writeln!(output, "T {number}")
            }
            Call::Restart => {
                let number = number_of(board.restart(&mut [0; 64]));
                writeln!(output, "R {number}")
            }
        }
    }
}

// A call's refusal by number, or 0.
fn number_of(answer: Result<Taken, Refusal>) -> u8 {
    answer.err().map_or(0, u8::from)
}

// A piece, offered until all of it is taken. A call that was refused would be again.
fn offer<W: Write>(output: &mut W, board: &mut Board, piece: &[u8]) -> io::Result<()> {
    let mut rest = piece;
    loop {
        let mut out = [0u8; 64];
        match board.receive(rest, &mut out) {
            Ok(got) => {
                let reply = Hex(&out[..got.written]);
                writeln!(output, "B 0 {} {reply}", got.taken)?;
                rest = &rest[got.taken..];
            }
            Err(refusal) => return writeln!(output, "B {} 0 -", u8::from(refusal)),
        }
        if rest.is_empty() {
            return Ok(());
        }
    }
}
