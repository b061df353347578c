// A task with its current job.
ghost use Rattle.std.specs.Prelude.{◌≡◌};
ghost use Rattle.rules.specs.Tasks.{entry_of, rate_of};

use crate::phases::Phase;
use order::entries::Entry;

#[derive(Clone, Copy)]
pub struct Task {
    pub number: u32,
    // thousandths of the processor
    pub rate: u32,
    pub period: u32,
    pub phase: Phase,
    // withdrawn, and gone at the deadline
    pub leaving: bool,
    // the current job: its release, its deadline, the ticks it is still to get and those it has run
    pub release: u64,
    pub deadline: u64,
    pub left: u64,
    pub ran: u64,
}

// What the ready list holds of a slot: the entry of a ready task with a tick left.
pub fn entry_of(slot: Option<Task>) -> Option<Entry>
    ensures { result ≡ entry_of slot }
{
    slot.filter(|task| task.phase == Phase::Ready && task.left > 0)
        .map(|task| Entry {
            number: task.number,
            deadline: task.deadline,
            rate: task.rate,
        })
}

// The rate that a slot's task has in force.
pub fn rate_of(slot: Option<Task>) -> u32
    ensures { result ≡ rate_of slot }
{
    slot.map_or(0, |task| task.rate)
}
