// Reads the records of a sheet: tasks and notes, each behind its kind byte.
ghost use Rattle.std.specs.Prelude.{◌≡◌, take};
ghost use Rattle.sheet.specs.Records.{field_in, bad_byte, text_in, name_in, task_in, note_text_in, note_in, body_in, record_at};
ghost use Rattle.sheet.specs.Values.{left_of, field_of, text_of, found_of, record_of};

use super::{Field, Found, Record, RecordFault, Rest, TaskRecord};
use crate::numbers::{Number, read_number};

// Reads a number and keeps where it begins. What it may be is judged by who asks for it.
pub fn read_field(rest: Rest<'_>) -> Result<(Field, Rest<'_>), RecordFault>
    ensures { field_of result ≡ field_in (left_of rest.entry) }
{
    let Rest { bytes, place } = rest;
    let Number { value, size } = read_number(bytes, place)?;
    let after = Rest {
        bytes: &bytes[size..],
        place: place + size,
    };
    Ok((Field { value, place }, after))
}

const SHORTEST_NAME: u32 = 1;

const LONGEST_NAME: u32 = 12;

const LONGEST_NOTE: u32 = 80;

// The offset of the first of `count` bytes that no name may have: one that does not print, or a space.
fn bad_byte(count: usize, rest: Rest<'_>) -> Option<usize>
    ensures { result ≡ bad_byte (take count rest.entry.bytes.now) rest.entry.place }
{
    rest.bytes
        .iter()
        .take(count)
        .position(|byte| !byte.is_ascii_graphic())
        .map(|index| rest.place + index)
}

// The text that the length field `size` announces. Here and below the size and what is left stay two parameters: `read_field` gives them as a pair.
fn read_text(size: Field, rest: Rest<'_>) -> Result<&[u8], RecordFault>
    ensures { text_of result ≡ text_in size (left_of rest.entry) }
{
    let count = size.value as usize;
    rest.bytes
        .get(..count)
        .ok_or(RecordFault::CutText(size.place))
}

// A bad byte counts before a missing one, so the bytes that are there are judged first.
fn read_name(size: Field, rest: Rest<'_>) -> Result<&[u8], RecordFault>
    ensures { text_of result ≡ name_in size (left_of rest.entry) }
{
    if !(SHORTEST_NAME..=LONGEST_NAME).contains(&size.value) {
        return Err(RecordFault::BadText(size.place));
    }
    if let Some(place) = bad_byte(size.value as usize, rest) {
        return Err(RecordFault::BadText(place));
    }
    read_text(size, rest)
}

fn read_note_text(size: Field, rest: Rest<'_>) -> Result<&[u8], RecordFault>
    ensures { text_of result ≡ note_text_in size (left_of rest.entry) }
{
    if size.value > LONGEST_NOTE {
        return Err(RecordFault::BadText(size.place));
    }
    read_text(size, rest)
}

fn read_task(rest: Rest<'_>) -> Result<Found<'_>, RecordFault>
    ensures { found_of result ≡ task_in (left_of rest.entry) }
{
    let (number, rest) = read_field(rest)?;
    let (rate, rest) = read_field(rest)?;
    let (period, rest) = read_field(rest)?;
    let (size, rest) = read_field(rest)?;
    let name = read_name(size, rest)?;
    let name_place = rest.place;
    let record = Record::Task(TaskRecord {
        number,
        rate,
        period,
        name,
        name_place,
    });
    Ok(Found {
        record,
        end: name_place + name.len(),
    })
}

fn read_note(rest: Rest<'_>) -> Result<Found<'_>, RecordFault>
    ensures { found_of result ≡ note_in (left_of rest.entry) }
{
    let (size, rest) = read_field(rest)?;
    let text = read_note_text(size, rest)?;
    let record = Record::Note { text };
    Ok(Found {
        record,
        end: rest.place + text.len(),
    })
}

// Bytes and no enum: a kind is matched once and kept nowhere; made by `TryFrom`, its two cases would be matched a second time and used by nothing.
const TASK: u8 = 1;

const NOTE: u8 = 2;

// What stands behind a kind byte, which is at `place`.
fn read_body(kind: u8, rest: Rest<'_>, place: usize) -> Result<Found<'_>, RecordFault>
    ensures { found_of result ≡ body_in kind (left_of rest.entry) place }
{
    match kind {
        TASK => read_task(rest),
        NOTE => read_note(rest),
        _ => Err(RecordFault::UnknownKind(place)),
    }
}

// The record of the sheet that begins at `place`, or none at the end of the sheet and past it. No `Rest` is asked for, since a place may lie past the end.
pub fn record_at(sheet: &[u8], place: usize) -> Result<Option<Found<'_>>, RecordFault>
    ensures { record_of result ≡ record_at sheet.now place }
{
    let Some([kind, rest @ ..]) = sheet.get(place..) else {
        return Ok(None);
    };
    let rest = Rest {
        bytes: rest,
        place: place + 1,
    };
    read_body(*kind, rest, place).map(Some)
}
