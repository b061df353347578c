// Withdrawal: a task goes at once, or at its deadline.
ghost use Rattle.std.specs.Prelude.{◌≡◌, map};
ghost use Rattle.controller.specs.Tied.{TiedTo};
ghost use Rattle.controller.specs.Withdrawing.{departing, with_slot, withdrawal_at};
ghost use Rattle.rules.specs.Tasks.{entry_of};

use crate::memory::TaskMemory;
use crate::states::Resting;
use ready::ReadyList;
use rules::refusals::Refusal;
use rules::task_at::TaskAt;
use rules::withdrawals::Departure;

impl Resting {
    // Withdraws the task that has the number, and tells when it goes. A refusal changes nothing.
    pub fn withdraw<L: ReadyList>(
        &self,
        number: u32,
        memory: &mut TaskMemory,
        list: &mut L,
    ) -> Result<Departure, Refusal>
        requires { TiedTo L.ReadyList self.now memory.old list.old }
        ensures answer { result ≡ departing (withdrawal_at self.now memory.old number) }
        ensures tasks { memory.new ≡ with_slot number (withdrawal_at self.now memory.old number) memory.old }
        ensures list { L.ReadyList.held list.new ≡ map entry_of memory.new }
        ensures tied { TiedTo L.ReadyList self.now memory.new list.new }
    {
        let task = memory.task_at(number).ok_or(Refusal::NoSuchTask)?;
        let slot = TaskAt {
            clock: self.clock,
            task,
        }
        .withdraw()?;
        memory.store(list, number, slot);
        Ok(Departure::from(slot))
    }
}
