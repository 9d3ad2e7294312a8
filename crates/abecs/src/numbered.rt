// What the calls answer in C, which knows no Result, no Option and no bool: a refusal by its number, 0 for none, and a flag as a byte.
ghost use Rattle.abecs.specs.Numbered.{IsAnswerOf, IsObjectOf};
ghost use Rattle.abecs.specs.Flags.{IsLoadOf};

use answer::Refusal;
use image::flag;
use objects::ObjectRead;
use tables::Load;

// The refusal's number or 0, and how many bytes were written at the start of the buffer.
#[repr(C)]
#[derive(Clone, Copy, Debug, PartialEq, Eq)]
pub struct Answer {
    pub refusal: u8,
    pub length: usize,
}

impl From<Result<usize, Refusal>> for Answer {
    ghost from_gives = { IsAnswerOf };

    fn from(answer: Result<usize, Refusal>) -> Answer {
        let (refusal, length) = match answer {
            Ok(length) => (0, length),
            Err(refusal) => (u8::from(refusal), 0),
        };
        Answer { refusal, length }
    }
}

// The refusal's number or 0, and the lengths of an object's tag, of its header and of all of it.
#[repr(C)]
#[derive(Clone, Copy, Debug, PartialEq, Eq)]
pub struct ObjectOf {
    pub refusal: u8,
    pub tag: usize,
    pub header: usize,
    pub whole: usize,
}

impl From<Result<ObjectRead, Refusal>> for ObjectOf {
    ghost from_gives = { IsObjectOf };

    fn from(answer: Result<ObjectRead, Refusal>) -> ObjectOf {
        match answer {
            Ok(ObjectRead { tag, header, whole }) => ObjectOf {
                refusal: 0,
                tag,
                header,
                whole,
            },
            Err(refusal) => ObjectOf {
                refusal: u8::from(refusal),
                tag: 0,
                header: 0,
                whole: 0,
            },
        }
    }
}

// The extent of a load's store, with the flag as a byte.
#[repr(C)]
#[derive(Clone, Copy, Debug, PartialEq, Eq)]
pub struct LoadOf {
    pub used: usize,
    pub records: usize,
    pub over: u8,
}

impl From<Load> for LoadOf {
    ghost from_gives = { IsLoadOf };

    fn from(load: Load) -> LoadOf {
        LoadOf {
            used: load.used,
            records: load.records,
            over: flag(load.over),
        }
    }
}

// Whether the new set became the live one, and the live store's extent then.
#[repr(C)]
#[derive(Clone, Copy, Debug, PartialEq, Eq)]
pub struct ClosedOf {
    pub done: u8,
    pub used: usize,
    pub records: usize,
}
