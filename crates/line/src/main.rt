// A fresh device between standard input and standard output: it reads bytes as they come, and writes its replies and nothing else.
#![tactic(auto)]

ghost use Rattle.std.specs.Prelude.{◌+◌, ◌≤◌, length, IfOk};

use board::Board;
use std::io;
use std::io::{Read, Write};

// Writes out the replies where another might not fit, and tells where the next one goes. The only error is that of the write.
fn make_room<W: Write>(output: &mut W, out: &[u8], used: usize) -> io::Result<usize>
    requires { (used ≤ length out.now) × (64 ≤ length out.now) }
    ensures { IfOk result (λ n. (n + 64 ≤ length out.now) × (n ≤ used)) }
{
    if 64 <= out.len() - used {
        return Ok(used);
    }
    output.write_all(&out[..used])?;
    Ok(0)
}

// Offers the bytes of `piece` until all are taken, puts the replies one after another, and tells where they end: a number beside `out`, since a call
// is lent what comes after it, and a write what comes before. A call that was refused would be again. The only error is that of a write: it ends the
// program, and nothing is said of the board and the buffer after it.
fn offer<W: Write>(
    output: &mut W,
    board: &mut Board,
    piece: &[u8],
    out: &mut [u8],
) -> io::Result<usize>
    requires { 64 ≤ length out.old }
    ensures { IfOk result (λ used. used ≤ length out.old) }
{
    let mut rest = piece;
    let mut used = 0;
    while !rest.is_empty() {
        used = make_room(output, out, used)?;
        let Ok(got) = board.receive(rest, &mut out[used..]) else {
            break;
        };
        used += got.written;
        rest = &rest[got.taken..];
    }
    Ok(used)
}

// Reads once, offers what came, and writes out the replies. Tells whether more may come.
fn read_once<R: Read, W: Write>(
    input: &mut R,
    output: &mut W,
    board: &mut Board,
) -> io::Result<bool> {
    let mut came = [0u8; 4096];
    let mut out = [0u8; 4096];
    let n = input.read(&mut came)?;
    if n == 0 {
        return Ok(false);
    }
    let used = offer(output, board, &came[..n], &mut out)?;
    output.write_all(&out[..used])?;
    output.flush()?;
    Ok(true)
}

// Reads until the input ends. Nothing says that it does, and a proved loop must end, so the turns are bounded by more than there will be.
fn run<R: Read, W: Write>(input: &mut R, output: &mut W, board: &mut Board) -> io::Result<()> {
    for _ in 0..u64::MAX {
        if !read_once(input, output, board)? {
            return Ok(());
        }
    }
    Ok(())
}

// A read or a write that fails ends the program.
fn main(rt: HostRuntime) -> io::Result<()> {
    run(&mut rt.stdin(), &mut rt.stdout(), &mut Board::new())
}
