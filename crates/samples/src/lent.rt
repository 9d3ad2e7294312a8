// The calls that are lent a buffer to write to.
use crate::fields::{Fields, Given};
use answer::Refusal;

// Such a call with its fields behind ROOM.
#[derive(Clone, Copy, Debug)]
pub enum Lent<'a> {
    // `W ROOM HEX`
    WritePacket(&'a [u8]),
    // `R ROOM HEX`
    ReadPacket(&'a [u8]),
    // `M ROOM RESPONSE HEX`
    ReadMessage {
        response: bool,
        message: &'a [u8],
    },
    // `L ROOM RESPONSE HEAD LIST`
    WriteMessage {
        response: bool,
        head: &'a [u8],
        list: &'a [u8],
    },
    // `T ROOM TAG VALUE`
    WriteObject {
        tag: &'a [u8],
        value: &'a [u8],
    },
    // `P ROOM TAGS OBJECTS`
    PickObjects {
        tags: &'a [u8],
        objects: &'a [u8],
    },
}

impl<'a> Lent<'a> {
    // The call of that letter, with the fields that it has.
    pub fn of(letter: u8, fields: &mut Fields, given: &'a mut Given) -> Option<Lent<'a>> {
        let Given { first, second } = given;
        let call = match letter {
            b'W' => Lent::WritePacket(fields.bytes(first)?),
            b'R' => Lent::ReadPacket(fields.bytes(first)?),
            b'M' => Lent::ReadMessage {
                response: fields.flag()?,
                message: fields.bytes(first)?,
            },
            b'L' => Lent::WriteMessage {
                response: fields.flag()?,
                head: fields.bytes(first)?,
                list: fields.bytes(second)?,
            },
            b'T' => Lent::WriteObject {
                tag: fields.bytes(first)?,
                value: fields.bytes(second)?,
            },
            b'P' => Lent::PickObjects {
                tags: fields.bytes(first)?,
                objects: fields.bytes(second)?,
            },
            _ => return None,
        };
        Some(call)
    }

    // What the call answers.
    pub fn make(self, out: &mut [u8]) -> Result<usize, Refusal> {
        match self {
            Lent::WritePacket(payload) => packet::write_packet(payload, out),
            Lent::ReadPacket(packet) => packet::read_packet(packet, out),
            Lent::ReadMessage { response, message } => {
                message::read_message(message, response, out)
            }
            Lent::WriteMessage {
                response,
                head,
                list,
            } => message::write_message(head, response, list, out),
            Lent::WriteObject { tag, value } => objects::write_object(tag, value, out),
            Lent::PickObjects { tags, objects } => picking::pick(tags, objects, out),
        }
    }
}
