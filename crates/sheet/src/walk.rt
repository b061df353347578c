// Goes over a sheet record by record.
ghost use Rattle.std.specs.Prelude.{◌≡◌};
ghost use Rattle.sheet.specs.Sheets.{sheet_of};
ghost use Rattle.sheet.specs.Walks.{records_left};

use crate::records::{Record, RecordFault, record_at};

// The records of a sheet from the left. The first fault is the last item. `rehearsal::scripts` has a twin over call records,
// since one iterator over both needs a trait for reader, fault and value, which is longer than a second `next`.
#[derive(Clone, Copy)]
pub struct Records<'a> {
    sheet: &'a [u8],
    place: usize,
}

impl<'a> Records<'a> {
    pub fn new(sheet: &'a [u8]) -> Records<'a>
        ensures { records_left result ≡ sheet_of sheet.now }
    {
        Records { sheet, place: 0 }
    }
}

impl<'a> Iterator for Records<'a> {
    ghost use Rattle.std.specs.Prelude.{◌-◌, length};
    ghost use Rattle.std.specs.Iterator.{at_most};
    ghost use Rattle.sheet.specs.Walks.{IsNext};

    type Item = Result<Record<'a>, RecordFault>;

    ghost next_gives = { IsNext };

    ghost remaining = { λ s. at_most (length s.sheet.now - s.place) };

    fn next(&mut self) -> Option<Self::Item> {
        match record_at(self.sheet, self.place) {
            Ok(Some(found)) => {
                self.place = found.end;
                Some(Ok(found.record))
            }
            Ok(None) => None,
            Err(fault) => {
                self.place = self.sheet.len();
                Some(Err(fault))
            }
        }
    }
}
