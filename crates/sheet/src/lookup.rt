// Where a name stands in a sheet.
ghost use Rattle.std.specs.Prelude.{◌≡◌, IfOk, None};
ghost use Rattle.sheet.specs.Values.{record_value};
ghost use Rattle.sheet.specs.Sheets.{Unfit, named, found_in, sheet_of};

use crate::records::{Record, RecordFault};
use crate::walk::Records;

// Where the name of a record stands, if it is a task of that name.
fn name_place(candidate: Record<'_>, name: &[u8]) -> Option<usize>
    ensures { result ≡ named name.now (record_value candidate.entry) }
{
    match candidate {
        Record::Task(task) if task.name == name => Some(task.name_place),
        Record::Task(_) | Record::Note { .. } => None,
    }
}

// The offset of the first task name that equals `name`. A fault anywhere in the sheet counts, also behind a match.
pub fn find(sheet: &[u8], name: &[u8]) -> Result<Option<usize>, RecordFault>
    ensures value { result ≡ found_in name.now (sheet_of sheet.now) }
    ensures unfit { Unfit name.now → IfOk result (λ found. found ≡ None) }
{
    let mut first = None;
    for record in Records::new(sheet) {
        first = first.or(name_place(record?, name));
    }
    Ok(first)
}
