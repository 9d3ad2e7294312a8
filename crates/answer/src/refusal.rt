// The refusals of calls, each with the number under which it is known outside (scope paper, section Numbered refusals of calls).
ghost use Rattle.std.specs.Prelude.{Some};
ghost use Rattle.answer.specs.Refusals.{IsNumberOf, text_of};

use std::error::Error;
use std::fmt;

// Why a call was refused.
#[derive(Clone, Copy, Debug, PartialEq, Eq)]
pub enum Refusal {
    // 1: the buffer has too little room
    NoRoom,
    // 2: a store has not its size
    WrongSize,
    // 3: the device or a store breaks a rule
    Unsound,
    // 10, 11: a payload, or a message that is read, with no byte or with too many
    Empty,
    TooLong,
    // 12, 13: not of a packet's form; another check
    NoPacket,
    WrongCheck,
    // 20, 21: a head or a block, and a parameter, that is not one
    NoMessage,
    NoParameter,
    // 22, 23: a parameter, and a message, that would be too long
    LongParameter,
    LongMessage,
    // 24: no such parameter
    NotFound,
    // 30, 31: no tag, no length form
    NoTag,
    NoLength,
    // 32, 33: a value that goes past the end, and one that is too long
    CutValue,
    LongValue,
}

impl From<Refusal> for u8 {
    ghost from_gives = { IsNumberOf };

    fn from(refusal: Refusal) -> u8 {
        match refusal {
            Refusal::NoRoom => 1,
            Refusal::WrongSize => 2,
            Refusal::Unsound => 3,
            Refusal::Empty => 10,
            Refusal::TooLong => 11,
            Refusal::NoPacket => 12,
            Refusal::WrongCheck => 13,
            Refusal::NoMessage => 20,
            Refusal::NoParameter => 21,
            Refusal::LongParameter => 22,
            Refusal::LongMessage => 23,
            Refusal::NotFound => 24,
            Refusal::NoTag => 30,
            Refusal::NoLength => 31,
            Refusal::CutValue => 32,
            Refusal::LongValue => 33,
        }
    }
}

impl fmt::Display for Refusal {
    ghost output = { λ refusal. Some (text_of refusal) };

    fn fmt<W: fmt::Write>(&self, f: &mut fmt::Formatter<W>) -> fmt::Result {
        write!(f, "refusal {}", u8::from(*self))
    }
}

impl Error for Refusal {}
