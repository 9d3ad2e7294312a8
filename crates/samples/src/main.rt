// Runs a script of calls of the codecs and logs every answer, so that another program can be held to the same log.
//
// The script comes from standard input, one call to a line:
//     # ANYTHING                  a comment, copied to the log
//     W ROOM HEX                  the packet of the payload HEX
//     R ROOM HEX                  the payload of the packet HEX
//     M ROOM RESPONSE HEX         the parameter list of the message HEX; RESPONSE is 0 for a command and 1 for a response
//     L ROOM RESPONSE HEAD LIST   the message of a head and a parameter list
//     F NUMBER N LIST             the data of the Nth parameter of that number
//     O HEX                       the lengths of the object at the start of HEX
//     T ROOM TAG VALUE            the object of a tag and a value
//     P ROOM TAGS OBJECTS         the objects that are picked for the tags
// ROOM is the size of the buffer that the call may write to, in one to five decimal digits, 0 to 8192; NUMBER goes to 65535 and N to
// 99999. HEX, and each field like it, has two upper-case digits for each of at most 8192 bytes, or is `-` for none. One space stands before
// each field. The log line of a call is `REFUSAL LENGTH OUT`, where REFUSAL is 0 and LENGTH what was answered, or REFUSAL is the number of a
// refusal and LENGTH 0. OUT is the whole buffer afterwards, in the form of HEX; for F it is the part that was handed back, and for O the line
// is `REFUSAL TAG HEADER WHOLE`, with three 0 behind a refusal. Any other line is logged as `bad line`. A last line counts with or without
// its line end, and is logged with one.
#![tactic(auto)]

mod calls;
mod fields;
mod lent;
mod log;

ghost use Rattle.std.specs.Prelude.{◌≡◌, length};

use calls::Call;
use fields::{Given, LARGEST};
use log::Log;
use script::read_full;
use std::io;
use std::io::{BufWriter, Write};

// A longer script is cut.
const LONGEST: usize = 1048576;

// Room for the longest script. Its `ensures` is all that `main` has to know of so long a list.
fn empty_script() -> [u8; LONGEST]
    ensures { 1048576 ≡ length result }
{
    [0; LONGEST]
}

// Reads the script and runs it. A full buffer can't tell whether the script went on: what was read is run, its last
// line as it was cut, and the log then ends with `script too long`. A read or a write that fails ends the program.
fn main(rt: HostRuntime) -> io::Result<()> {
    let mut script = empty_script();
    let n = read_full(&mut rt.stdin(), &mut script)?;
    let mut log = Log::new(BufWriter::new(rt.alloc(), rt.stdout())?);
    run_script(&mut log, &script[..n])?;
    if n == LONGEST {
        log.too_long()?;
    }
    log.flush()
}

// Runs each line of `script`. What a call is given, and the room that it may write to, are made once, since to make them costs more than a short call.
fn run_script<W: Write>(log: &mut Log<W>, script: &[u8]) -> io::Result<()> {
    let mut given = Given::empty();
    let mut room = [0u8; LARGEST];
    for ended in script.split_inclusive(|b| *b == b'\n') {
        let line = ended.strip_suffix(b"\n").unwrap_or(ended);
        run_line(log, line, &mut given, &mut room)?;
    }
    Ok(())
}

// Runs one line.
fn run_line<W: Write>(
    log: &mut Log<W>,
    line: &[u8],
    given: &mut Given,
    room: &mut [u8; LARGEST],
) -> io::Result<()> {
    if line.starts_with(b"#") {
        return log.comment(line);
    }
    match Call::of(line, given) {
        Some(call) => call.make(log, room),
        None => log.bad_line(),
    }
}
