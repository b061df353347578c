// Admission to the table: the rule of one task, with what it asks of the others.
ghost use Rattle.std.specs.Prelude.{◌≡◌, map};
ghost use Rattle.controller.specs.Admitting.{accepted, admission_to, with_task};
ghost use Rattle.controller.specs.Tied.{TiedTo};
ghost use Rattle.rules.specs.Tasks.{entry_of};

use crate::memory::TaskMemory;
use crate::states::Resting;
use ready::ReadyList;
use rules::admission::{Reservation, admit};
use rules::refusals::Refusal;

impl TaskMemory {
    // Admits a task at the clock, its first job released then.
    pub(crate) fn enrol<L: ReadyList>(
        &mut self,
        clock: u64,
        asked: Reservation,
        list: &mut L,
    ) -> Result<(), Refusal>
        requires { TiedTo L.ReadyList clock self.old list.old }
        ensures answer { result ≡ accepted (admission_to clock self.old asked) }
        ensures tasks { self.new ≡ with_task (admission_to clock self.old asked) self.old }
        ensures tied { TiedTo L.ReadyList clock self.new list.new }
    {
        let taken = self.task_at(asked.number).is_some();
        let task = admit(clock, taken, self.rates(), asked)?;
        self.store(list, task.number, Some(task));
        Ok(())
    }
}

impl Resting {
    // Admits a task at the clock. A refusal changes nothing.
    pub fn admit<L: ReadyList>(
        &self,
        asked: Reservation,
        memory: &mut TaskMemory,
        list: &mut L,
    ) -> Result<(), Refusal>
        requires { TiedTo L.ReadyList self.now memory.old list.old }
        ensures answer { result ≡ accepted (admission_to self.now memory.old asked) }
        ensures tasks { memory.new ≡ with_task (admission_to self.now memory.old asked) memory.old }
        ensures list { L.ReadyList.held list.new ≡ map entry_of memory.new }
        ensures tied { TiedTo L.ReadyList self.now memory.new list.new }
    {
        memory.enrol(self.clock, asked, list)
    }
}
