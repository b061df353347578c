// Changes under way: a task's rule, with what it asks of the table.
ghost use Rattle.std.specs.Prelude.{◌≡◌, map};
ghost use Rattle.controller.specs.Admitting.{accepted, with_task};
ghost use Rattle.controller.specs.Changing.{change_at};
ghost use Rattle.controller.specs.Tied.{TiedTo};
ghost use Rattle.rules.specs.Tasks.{entry_of};

use crate::memory::TaskMemory;
use crate::states::Resting;
use ready::ReadyList;
use rules::changes::Change;
use rules::refusals::Refusal;
use rules::task_at::TaskAt;

impl Resting {
    // Changes the task that has the number. A refusal changes nothing.
    pub fn change<L: ReadyList>(
        &self,
        number: u32,
        change: Change,
        memory: &mut TaskMemory,
        list: &mut L,
    ) -> Result<(), Refusal>
        requires { TiedTo L.ReadyList self.now memory.old list.old }
        ensures answer { result ≡ accepted (change_at self.now memory.old number change) }
        ensures tasks { memory.new ≡ with_task (change_at self.now memory.old number change) memory.old }
        ensures list { L.ReadyList.held list.new ≡ map entry_of memory.new }
        ensures tied { TiedTo L.ReadyList self.now memory.new list.new }
    {
        let task = memory.task_at(number).ok_or(Refusal::NoSuchTask)?;
        let next = TaskAt {
            clock: self.clock,
            task,
        }
        .apply(memory.rates(), change)?;
        memory.store(list, number, Some(next));
        Ok(())
    }
}
