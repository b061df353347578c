// Make: a controller from a sheet of tasks.
ghost use Rattle.std.specs.Prelude.{◌≡◌, map};
ghost use Rattle.controller.specs.Making.{after_record, enrolled, made, made_tasks, make_answer, with_tasks};
ghost use Rattle.controller.specs.Tasks.{no_tasks};
ghost use Rattle.controller.specs.Tied.{TiedTo};
ghost use Rattle.rules.specs.Tasks.{entry_of};
ghost use Rattle.sheet.specs.Records.{task as task_of};
ghost use Rattle.sheet.specs.Sheets.{sheet_of};
ghost use Rattle.sheet.specs.Values.{record_value, task_value};

use crate::faults::{SheetFault, place_of};
use crate::memory::TaskMemory;
use crate::states::Resting;
use ready::ReadyList;
use rules::admission::Reservation;
use sheet::records::{Record, TaskRecord};
use sheet::walk::Records;

impl TaskMemory {
    // One task of the sheet, admitted at the clock 0.
    fn enrol_task<L: ReadyList>(&mut self, task: TaskRecord, list: &mut L) -> Result<(), SheetFault>
        requires { TiedTo L.ReadyList 0 self.old list.old }
        ensures answer { with_tasks result self.new ≡ after_record self.old (task_of (task_value task.entry)) }
        ensures tied { TiedTo L.ReadyList 0 self.new list.new }
    {
        let asked = Reservation {
            number: task.number.value,
            rate: task.rate.value,
            period: task.period.value,
        };
        // a match, since of a closure in `map_err` no clause followed
        match self.enrol(0, asked, list) {
            Ok(()) => Ok(()),
            Err(why) => Err(SheetFault::InTable(why, place_of(why, task))),
        }
    }

    // One record of the sheet: a task is admitted, a note passed over.
    fn enrol_record<L: ReadyList>(&mut self, found: Record, list: &mut L) -> Result<(), SheetFault>
        requires { TiedTo L.ReadyList 0 self.old list.old }
        ensures answer { with_tasks result self.new ≡ after_record self.old (record_value found.entry) }
        ensures tied { TiedTo L.ReadyList 0 self.new list.new }
    {
        match found {
            Record::Task(task) => self.enrol_task(task, list),
            Record::Note { .. } => Ok(()),
        }
    }

    // All records of the sheet, from the left; the first fault ends it.
    fn load<L: ReadyList>(&mut self, sheet: &[u8], list: &mut L) -> Result<(), SheetFault>
        requires { TiedTo L.ReadyList 0 self.old list.old }
        ensures answer { with_tasks result self.new ≡ enrolled self.old (sheet_of sheet.now) }
        ensures tied { TiedTo L.ReadyList 0 self.new list.new }
    {
        for record in Records::new(sheet) {
            self.enrol_record(record?, list)?;
        }
        Ok(())
    }
}

// A controller without tasks, at the clock 0, whatever memory and list held before.
pub fn start<L: ReadyList>(memory: &mut TaskMemory, list: &mut L) -> Resting
    ensures clock { result ≡ 0 }
    ensures tasks { memory.new ≡ no_tasks }
    ensures list { L.ReadyList.held list.new ≡ map entry_of memory.new }
    ensures tied { TiedTo L.ReadyList result memory.new list.new }
{
    memory.clear(list);
    Resting { clock: 0 }
}

// Makes a controller with the sheet's tasks, at the clock 0. A refused sheet leaves no task and an empty list.
pub fn make<L: ReadyList>(
    sheet: &[u8],
    memory: &mut TaskMemory,
    list: &mut L,
) -> (Resting, Result<u32, SheetFault>)
    ensures answer { result.1 ≡ make_answer (made sheet.now) }
    ensures clock { result.0 ≡ 0 }
    ensures tasks { memory.new ≡ made_tasks (made sheet.now) }
    ensures list { L.ReadyList.held list.new ≡ map entry_of memory.new }
    ensures tied { TiedTo L.ReadyList result.0 memory.new list.new }
{
    let rest = start(memory, list);
    match memory.load(sheet, list) {
        Ok(()) => (rest, Ok(memory.count())),
        Err(fault) => {
            memory.clear(list);
            (rest, Err(fault))
        }
    }
}
