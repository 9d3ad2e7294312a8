// Runs a script of device calls from standard input against a fresh device, and writes a log of what each call answered, and of the state at the
// end, so that another program can be held to the same log.
//
// A call of the script is
//     B hi lo BYTES   a piece of hi * 256 + lo bytes, offered again until all of it is taken; an empty piece is one call
//     T               a timeout
//     R               a restart
// and its line in the log is `B REFUSAL TAKEN REPLY`, `T REFUSAL` or `R REFUSAL`, REPLY in upper-case hexadecimal or `-` where it is empty. A byte
// that begins no call, or a script that breaks off, is logged as `bad script` and ends the calls.
#![tactic(auto)]

mod calls;
mod showing;

ghost use Rattle.std.specs.Prelude.{◌≡◌, length};

use board::Board;
use calls::Call;
use script::read_full;
use showing::show;
use std::io;
use std::io::{BufWriter, Write};

// A longer script is cut.
const LONGEST: usize = 1048576;

// Room for the longest script. Its `ensures` is all that `main` has to know of so long a list.
fn empty_script() -> [u8; LONGEST]
    ensures { 1048576 ≡ length result }
{
    [0; LONGEST]
}

// Reads the script, runs it, and logs the state that it leaves. A script that fills the buffer may have gone on: the log then ends with `script too
// long`. A read or a write that fails ends the program.
fn main(rt: HostRuntime) -> io::Result<()> {
    let mut script = empty_script();
    let n = read_full(&mut rt.stdin(), &mut script)?;
    let mut output = BufWriter::new(rt.alloc(), rt.stdout())?;
    let mut board = Board::new();
    run_script(&mut output, &mut board, &script[..n])?;
    show(&mut output, &board)?;
    if n == LONGEST {
        writeln!(output, "script too long")?;
    }
    output.flush()
}

// Makes the calls of the script, up to the first place where none stands.
fn run_script<W: Write>(output: &mut W, board: &mut Board, script: &[u8]) -> io::Result<()> {
    let mut rest = script;
    while let Some((call, others)) = Call::first_of(rest) {
        call.make(output, board)?;
        rest = others;
    }
    if !rest.is_empty() {
        writeln!(output, "bad script")?;
    }
    Ok(())
}
