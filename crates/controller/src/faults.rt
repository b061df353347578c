// What is wrong with a sheet: a fault of its bytes, or a task that may not be admitted.
ghost use Rattle.std.specs.Prelude.{◌≡◌};
ghost use Rattle.controller.specs.Faults.{place_of};
ghost use Rattle.controller.specs.declared.faults.SheetFault.TheVariants.{InRecord};
ghost use Rattle.sheet.specs.Values.{task_value};

use rules::refusals::Refusal;
use sheet::records::{RecordFault, TaskRecord, Told};

#[derive(Clone, Copy, PartialEq, Eq, Debug)]
pub enum SheetFault {
    InRecord(RecordFault),
    // the reason, and the offset of the field that it speaks of
    InTable(Refusal, usize),
}

impl From<RecordFault> for SheetFault {
    ghost from_gives = { λ fault whole. whole ≡ InRecord fault };

    fn from(value: RecordFault) -> SheetFault {
        SheetFault::InRecord(value)
    }
}

// The fault as it is reported: number, layer and place.
impl From<SheetFault> for Told {
    ghost use Rattle.controller.specs.Faults.{told};

    ghost from_gives = { λ fault shown. shown ≡ told fault };

    fn from(value: SheetFault) -> Told {
        match value {
            SheetFault::InRecord(fault) => Told::from(fault),
            SheetFault::InTable(why, place) => Told {
                number: u8::from(why),
                layer: 3,
                place,
            },
        }
    }
}

// The field of a task's record that a refusal speaks of.
pub(crate) fn place_of(why: Refusal, task: TaskRecord) -> usize
    ensures { result ≡ place_of why (task_value task.entry) }
{
    match why {
        Refusal::RateOutOfRange | Refusal::RatesExceeded => task.rate.place,
        Refusal::PeriodOutOfRange | Refusal::JobTooSmall => task.period.place,
        _ => task.number.place,
    }
}
