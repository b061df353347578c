// The task memory that is lent to each call.
ghost use Rattle.std.specs.Prelude.{◌≡◌, ◌≤◌, is_some, count_by};
ghost use Rattle.controller.specs.Changing.{task_at};
ghost use Rattle.controller.specs.Tasks.{no_tasks, rates};
ghost use Rattle.controller.specs.Turns.{nearest};

use crate::states::LAST_TICK;
use order::entries::slot_of;
use rules::jobs::sooner;
use rules::tasks::{Task, rate_of};
use std::marker::Model;

// One slot for each task number; number k lies in slot k - 1. Contracts see the slots.
#[derive(Drop)]
pub struct TaskMemory {
    pub(crate) slots: [Option<Task>; 64],
}

impl Model for TaskMemory {
    ghost use Rattle.std.specs.Prelude.{◌≡◌, length};
    ghost use Rattle.controller.specs.Tasks.{Tasks};

    ghost Value = { Tasks };

    ghost view = { λ memory. memory.slots };

    ghost invariant = { λ memory. length memory.slots ≡ 64 };
}

impl TaskMemory {
    pub fn new() -> TaskMemory
        ensures { result ≡ no_tasks }
    {
        TaskMemory { slots: [None; 64] }
    }

    // The task that has a number.
    pub(crate) fn task_at(&self, number: u32) -> Option<Task>
        ensures { result ≡ task_at self.now number }
    {
        self.slots[slot_of(number)?]
    }

    // The rates in force of all tasks, leaving ones included.
    pub(crate) fn rates(&self) -> u32
        requires { rates self.now ≤ 1000 }
        ensures { result ≡ rates self.now }
    {
        // a loop and no chain, by a rule of the project
        let mut sum = 0;
        for slot in self.slots.iter() {
            sum += rate_of(*slot);
        }
        sum
    }

    // The nearest deadline of any task, or the last tick where that is sooner.
    pub(crate) fn nearest(&self) -> u64
        ensures { result ≡ nearest self.now }
    {
        self.slots
            .iter()
            .fold(LAST_TICK, |time, slot| sooner(time, *slot))
    }

    // How many tasks there are.
    pub(crate) fn count(&self) -> u32
        ensures { result ≡ count_by is_some self.now }
    {
        self.slots.iter().filter(|slot| slot.is_some()).count() as u32
    }
}
