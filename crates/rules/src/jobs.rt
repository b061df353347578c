// A task's jobs: what one is worth, and what follows it at its deadline.
ghost use Rattle.std.specs.Prelude.{◌≡◌, ◌^◌, ◌≤◌};
ghost use Rattle.rules.specs.Jobs.{Chargeable, after_deadline, charged, due_at, grant as grant_of, left_of, sooner as sooner_of};

use crate::phases::Event;
use crate::tasks::Task;
use crate::ticks::whole_ticks;

// The ticks of a job: rate times period in thousandths, rounded down.
pub fn grant(rate: u32, period: u32) -> u64
    ensures { result ≡ grant_of rate period }
{
    whole_ticks(rate, u64::from(period))
}

// A task at its deadline: a leaving one goes, any other gets its next job.
pub fn after_deadline(task: Task) -> Option<Task>
    requires { task.deadline ≤ 2 ^ 40 }
    ensures { result ≡ after_deadline task }
{
    if task.leaving {
        return None;
    }
    let mut next = Task {
        release: task.deadline,
        deadline: task.deadline + u64::from(task.period),
        left: grant(task.rate, task.period),
        ran: 0,
        ..task
    };
    next.phase.step(Event::Deadline);
    Some(next)
}

// A slot when the clock has come to `clock`: its task's deadline is dealt with if it is due.
pub fn due_at(clock: u64, slot: Option<Task>) -> Option<Task>
    requires { clock ≤ 2 ^ 40 }
    ensures { result ≡ due_at clock slot }
{
    let task = slot?;
    if task.deadline == clock {
        after_deadline(task)
    } else {
        Some(task)
    }
}

// The ticks that a slot's task has left.
pub fn left_of(slot: Option<Task>) -> u64
    ensures { result ≡ left_of slot }
{
    slot.map_or(0, |task| task.left)
}

// The sooner of a time and a slot's deadline.
pub fn sooner(time: u64, slot: Option<Task>) -> u64
    ensures { result ≡ sooner_of time slot }
{
    slot.map_or(time, |task| time.min(task.deadline))
}

// A slot whose task has run `count` ticks of those it had left.
pub fn charge(count: u64, slot: Option<Task>) -> Option<Task>
    requires { Chargeable count slot }
    ensures { result ≡ charged count slot }
{
    slot.map(|task| Task {
        left: task.left - count,
        ran: task.ran + count,
        ..task
    })
}
