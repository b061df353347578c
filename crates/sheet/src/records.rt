// What a record of a sheet holds, and what may be wrong with one.
ghost use Rattle.std.specs.Prelude.{◌≡◌, ◌+◌, ◌^◌, ◌<◌, length};
ghost use Rattle.sheet.specs.declared.records.RecordFault.TheVariants.{InNumber};

use crate::numbers::NumberFault;

mod reading;

pub use reading::{read_field, record_at};

#[derive(Clone, Copy, PartialEq, Eq, Debug)]
pub enum RecordFault {
    // A number of the record is cut or malformed.
    InNumber(NumberFault),
    // The kind byte is neither a task's nor a note's.
    UnknownKind(usize),
    // The bytes end inside a name or a note.
    CutText(usize),
    // A length is out of its range, or a name has a byte that no name may have.
    BadText(usize),
}

impl From<NumberFault> for RecordFault {
    ghost from_gives = { λ fault whole. whole ≡ InNumber fault };

    fn from(value: NumberFault) -> RecordFault {
        RecordFault::InNumber(value)
    }
}

// A fault as it is reported: its number, its layer and the offset of the first byte of the field at fault.
// Numbers, its layer too, since they are only printed and never matched on; until then the kinds are the cases of the fault types.
#[derive(Clone, Copy, PartialEq, Eq, Debug)]
pub struct Told {
    pub number: u8,
    pub layer: u8,
    pub place: usize,
}

impl From<RecordFault> for Told {
    ghost use Rattle.sheet.specs.Records.{told};

    ghost from_gives = { λ fault shown. shown ≡ told fault };

    fn from(value: RecordFault) -> Told {
        let (number, layer, place) = match value {
            RecordFault::InNumber(NumberFault::Cut(place)) => (1, 1, place),
            RecordFault::InNumber(NumberFault::Malformed(place)) => (2, 1, place),
            RecordFault::UnknownKind(place) => (3, 2, place),
            RecordFault::CutText(place) => (1, 2, place),
            RecordFault::BadText(place) => (4, 2, place),
        };
        Told {
            number,
            layer,
            place,
        }
    }
}

// A number's value, and the offset of its first byte.
#[derive(Clone, Copy, PartialEq, Eq, Debug)]
pub struct Field {
    pub value: u32,
    pub place: usize,
}

#[derive(Clone, Copy, Debug)]
pub struct TaskRecord<'a> {
    pub number: Field,
    pub rate: Field,
    pub period: Field,
    pub name: &'a [u8],
    pub name_place: usize,
}

#[derive(Clone, Copy, Debug)]
pub enum Record<'a> {
    Task(TaskRecord<'a>),
    Note { text: &'a [u8] },
}

// A record that was found, and the offset just past it.
#[derive(Clone, Copy, Debug)]
pub struct Found<'a> {
    pub record: Record<'a>,
    pub end: usize,
}

// What is left to read, and the offset of its first byte.
#[derive(Clone, Copy)]
pub struct Rest<'a> {
    pub bytes: &'a [u8],
    pub place: usize,
    pub ghost room: { place + length bytes.now < 2 ^ 64 },
}
