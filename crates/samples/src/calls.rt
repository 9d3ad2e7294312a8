// The calls that a line can ask for.
use crate::fields::{Fields, Given, LARGEST, Size};
use crate::lent::Lent;
use crate::log::Log;
use std::io;
use std::io::Write;

// A call with its fields.
#[derive(Clone, Copy, Debug)]
pub enum Call<'a> {
    // `F NUMBER N LIST`
    FindParameter {
        number: u16,
        n: usize,
        list: &'a [u8],
    },
    // `O HEX`
    ReadObject(&'a [u8]),
    // one that is lent a buffer of that size
    Lent {
        size: Size,
        call: Lent<'a>,
    },
}

impl<'a> Call<'a> {
    // The call that a line asks for; none where it is no call. The bytes of its fields are put in `given`.
    pub fn of(line: &[u8], given: &'a mut Given) -> Option<Call<'a>> {
        let (letter, rest) = line.split_first()?;
        let mut fields = Fields::of(rest);
        let call = match letter {
            b'F' => Call::FindParameter {
                number: fields.parameter_number()?,
                n: fields.number()?,
                list: fields.bytes(&mut given.first)?,
            },
            b'O' => Call::ReadObject(fields.bytes(&mut given.first)?),
            _ => Call::Lent {
                size: fields.size()?,
                call: Lent::of(*letter, &mut fields, given)?,
            },
        };
        fields.are_taken().then_some(call)
    }

    // Makes the call and logs it. What it may write to is a part of `room`.
    pub fn make<W: Write>(self, log: &mut Log<W>, room: &mut [u8; LARGEST]) -> io::Result<()> {
        match self {
            Call::FindParameter { number, n, list } => {
                let found = parameters::find(list, number, n);
                log.answered(found.map(|part| part.len()), found.unwrap_or(&[]))
            }
            Call::ReadObject(input) => log.object(objects::read_object(input)),
            Call::Lent { size, call } => {
                let out = size.numbered(room);
                let answer = call.make(out);
                log.answered(answer, out)
            }
        }
    }
}
