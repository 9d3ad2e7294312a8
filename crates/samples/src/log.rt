// The lines of the log.
use answer::Refusal;
use objects::ObjectRead;
use script::Hex;
use std::io;
use std::io::{Cursor, Write};

// The longest line of a call: three digits, twenty digits, two for each of 8192 bytes, two spaces and the line end.
const LONGEST_LINE: usize = 16410;

// Where the log goes. The line of a call is put together first, so that it is written at once.
#[derive(Drop)]
pub struct Log<W> {
    output: W,
    line: Cursor<[u8; LONGEST_LINE]>,
}

impl<W: Write> Log<W> {
    // A log with no line yet.
    pub fn new(output: W) -> Log<W> {
        Log {
            output,
            line: Cursor::new([0; LONGEST_LINE]),
        }
    }

    // A comment of the script.
    pub fn comment(&mut self, line: &[u8]) -> io::Result<()> {
        self.output.write_all(line)?;
        self.output.write_all(b"\n")
    }

    // A line of the script that is no call.
    pub fn bad_line(&mut self) -> io::Result<()> {
        self.output.write_all(b"bad line\n")
    }

    // The line of a call: what it answered, and the whole buffer afterwards.
    pub fn answered(&mut self, answer: Result<usize, Refusal>, out: &[u8]) -> io::Result<()> {
        let out = Hex(out);
        self.line.set_position(0);
        match answer {
            Ok(length) => writeln!(self.line, "0 {length} {out}")?,
            Err(refusal) => writeln!(self.line, "{} 0 {out}", u8::from(refusal))?,
        }
        self.put_line()
    }

    // The line of an object that was read: the refusal and the three lengths.
    pub fn object(&mut self, read: Result<ObjectRead, Refusal>) -> io::Result<()> {
        self.line.set_position(0);
        match read {
            Ok(object) => writeln!(
                self.line,
                "0 {} {} {}",
                object.tag, object.header, object.whole
            )?,
            Err(refusal) => writeln!(self.line, "{} 0 0 0", u8::from(refusal))?,
        }
        self.put_line()
    }

    // The line that was put together.
    fn put_line(&mut self) -> io::Result<()> {
        let text = self.line.get_ref().as_slice();
        let line = text.get(..self.line.position() as usize).unwrap_or(text);
        self.output.write_all(line)
    }

    // The end of a script that may have gone on.
    pub fn too_long(&mut self) -> io::Result<()> {
        self.output.write_all(b"script too long\n")
    }

    // Sends on what the output keeps.
    pub fn flush(&mut self) -> io::Result<()> {
        self.output.flush()
    }
}
