// Settle: the clock advances, the turn's task is charged, and every deadline that has come is dealt with.
ghost use Rattle.std.specs.Prelude.{◌≡◌, ◌^◌, ◌≤◌, map};
ghost use Rattle.controller.specs.Settling.{Runner, charged_in, settled_tasks, settling};
ghost use Rattle.controller.specs.Tasks.{Mirrored};
ghost use Rattle.controller.specs.Tied.{AfterSettle, OpenOn, TiedTo};
ghost use Rattle.rules.specs.Jobs.{due_at};
ghost use Rattle.rules.specs.Tasks.{entry_of};

use crate::memory::TaskMemory;
use crate::states::{OpenTurn, Resting, Runs};
use crate::store::rewrite;
use ready::ReadyList;
use rules::jobs::{charge, due_at};
use rules::refusals::Refusal;

impl TaskMemory {
    // Charges the ticks of a turn to its task; an idle turn charges nobody.
    fn charge_runner<L: ReadyList>(&mut self, runs: Runs, count: u64, list: &mut L)
        requires runner { Runner runs count self.old }
        requires mirrored { Mirrored L.ReadyList self.old list.old }
        ensures tasks { self.new ≡ charged_in runs count self.old }
        ensures mirrored { Mirrored L.ReadyList self.new list.new }
    {
        if let Runs::Task { number, .. } = runs {
            let slot = self.task_at(number);
            self.store(list, number, charge(count, slot));
        }
    }

    // Deals with every deadline that has come.
    fn release_due<L: ReadyList>(&mut self, clock: u64, list: &mut L)
        requires in_time { clock ≤ 2 ^ 40 }
        requires mirrored { Mirrored L.ReadyList self.old list.old }
        ensures tasks { self.new ≡ map (due_at clock) self.old }
        ensures mirrored { Mirrored L.ReadyList self.new list.new }
    {
        for (place, slot) in self.slots.iter_mut().enumerate() {
            let next = due_at(clock, *slot);
            // the number of the slot at a place: the one way back from `slot_of`
            rewrite(slot, list, place as u32 + 1, next);
        }
    }
}

impl OpenTurn {
    // Closes the turn after `count` of its ticks. Refused above its length; the turn is then handed back, still open.
    pub fn settle<L: ReadyList>(
        self,
        count: u64,
        memory: &mut TaskMemory,
        list: &mut L,
    ) -> Result<Resting, (OpenTurn, Refusal)>
        requires { OpenOn L.ReadyList L.Order.TieOrder.before self memory.old list.old }
        ensures answer { result ≡ settling self count }
        ensures tasks { memory.new ≡ settled_tasks self count memory.old }
        ensures list { L.ReadyList.held list.new ≡ map entry_of memory.new }
        ensures tied { AfterSettle L.ReadyList L.Order.TieOrder.before result memory.new list.new }
    {
        if count > self.turn.length {
            return Err((self, Refusal::CountTooHigh));
        }
        let OpenTurn { turn } = self;
        let clock = turn.start + count;
        memory.charge_runner(turn.runs, count, list);
        memory.release_due(clock, list);
        Ok(Resting { clock })
    }

    // Gives the turn back unused: it is settled with 0, which changes nothing and is never refused.
    pub fn give_up<L: ReadyList>(self, memory: &mut TaskMemory, list: &mut L) -> Resting
        requires { OpenOn L.ReadyList L.Order.TieOrder.before self memory.old list.old }
        ensures clock { result ≡ self.start }
        ensures tasks { memory.new ≡ memory.old }
        ensures list { L.ReadyList.held list.new ≡ map entry_of memory.new }
        ensures tied { TiedTo L.ReadyList result memory.new list.new }
    {
        match self.settle(0, memory, list) {
            Ok(rest) => rest,
            Err((_, _)) => unreachable(),
        }
    }
}
