// Changes of one task under way: rate, period, wait, wake, finish.
ghost use Rattle.std.specs.Prelude.{◌≡◌, ◌+◌, ◌^◌, ◌≤◌, Err, Ok, cond};
ghost use Rattle.rules.specs.Changes.{advanced_by, changeable, changed, lowered_by, moved_by, postponed_by, raised_by, why_not_period, why_not_rate, why_not_ready, why_not_wake, with_period, with_rate, woken};
ghost use Rattle.rules.specs.Refusals.{unless};
ghost use Rattle.rules.specs.declared.refusals.Refusal.TheVariants.{NotReady};

use crate::limits::{check_period, check_rate, check_shared, check_worth};
use crate::phases::{Event, Phase};
use crate::refusals::Refusal;
use crate::task_at::TaskAt;
use crate::tasks::Task;
use crate::ticks::{ticks_to_cover, whole_ticks};

// What is asked of a task.
#[derive(Clone, Copy)]
pub enum Change {
    Rate(u32),
    Period(u32),
    Wait,
    Wake,
    Finish,
}

// Rate and period change only while the task is ready and not leaving.
fn check_changeable(task: Task) -> Result<(), Refusal>
    ensures { result ≡ cond (changeable task) (Ok tt) (Err NotReady) }
{
    if task.phase != Phase::Ready || task.leaving {
        return Err(Refusal::NotReady);
    }
    Ok(())
}

// A task after an event, with `left` ticks left.
fn moved_by(event: Event, left: u64, task: Task) -> Task
    ensures { result ≡ moved_by event left task }
{
    let mut next = Task { left, ..task };
    next.phase.step(event);
    next
}

// A ready task after an event, with `left` ticks left.
fn leave_ready(task: Task, event: Event, left: u64) -> Result<Task, Refusal>
    ensures { result ≡ unless (why_not_ready task) (moved_by event left task) }
{
    if task.phase != Phase::Ready {
        return Err(Refusal::NotReady);
    }
    Ok(moved_by(event, left, task))
}

impl TaskAt {
    // Ticks gained by a higher rate until the deadline, rounded down; none by a lower one.
    fn raised_by(self, rate: u32) -> u64
        requires { rate ≤ 1000 }
        ensures value { result ≡ raised_by self.clock self.task rate }
        ensures few { result ≤ 1000000 }
    {
        whole_ticks(rate.saturating_sub(self.task.rate), self.until_deadline())
    }

    // Ticks lost by a lower rate until the deadline, rounded up; none by a higher one.
    fn lowered_by(self, rate: u32) -> u64
        ensures { result ≡ lowered_by self.clock self.task rate }
    {
        ticks_to_cover(self.task.rate.saturating_sub(rate), self.until_deadline())
    }

    // The task with another rate.
    fn change_rate(self, rates: u32, rate: u32) -> Result<Task, Refusal>
        requires shared { rates ≤ 1000 }
        requires part { self.task.rate ≤ rates }
        ensures { result ≡ unless (why_not_rate self.clock rates self.task rate) (with_rate self.clock self.task rate) }
    {
        let task = self.task;
        check_changeable(task)?;
        check_rate(rate)?;
        check_worth(rate, task.period)?;
        check_shared(rates - task.rate, rate)?;
        if rate < task.rate && !self.may_lower() {
            return Err(Refusal::AheadOfRate);
        }
        let lost = self.lowered_by(rate);
        if lost > task.left {
            return Err(Refusal::TooFewTicks);
        }
        Ok(Task {
            rate,
            left: task.left + self.raised_by(rate) - lost,
            ..task
        })
    }

    // Ticks gained by a later deadline, rounded down; none by an earlier one.
    fn postponed_by(self, deadline: u64) -> u64
        requires { deadline ≤ self.task.deadline + 1000000 }
        ensures value { result ≡ postponed_by self.task deadline }
        ensures few { result ≤ 1000000 }
    {
        whole_ticks(self.task.rate, deadline.saturating_sub(self.task.deadline))
    }

    // Ticks lost by an earlier deadline, rounded up; none by a later one.
    fn advanced_by(self, deadline: u64) -> u64
        requires { self.task.deadline ≤ deadline + 1000000 }
        ensures { result ≡ advanced_by self.task deadline }
    {
        ticks_to_cover(self.task.rate, self.task.deadline.saturating_sub(deadline))
    }

    // The task with another period, and so with another deadline of its current job.
    fn change_period(self, period: u32) -> Result<Task, Refusal>
        requires { self.clock ≤ 2 ^ 40 }
        ensures { result ≡ unless (why_not_period self.clock self.task period) (with_period self.task period) }
    {
        let task = self.task;
        check_changeable(task)?;
        check_period(period)?;
        check_worth(task.rate, period)?;
        let deadline = task.release + u64::from(period);
        if deadline < task.deadline && 1000 * task.left > self.share() {
            return Err(Refusal::BehindRate);
        }
        let lost = self.advanced_by(deadline);
        if deadline <= self.clock || lost > task.left {
            return Err(Refusal::TooFewTicks);
        }
        Ok(Task {
            period,
            deadline,
            left: task.left + self.postponed_by(deadline) - lost,
            ..task
        })
    }

    // A task that wakes keeps no more than its rate gives until the deadline: time that it slept through is not made up.
    fn wake(self) -> Result<Task, Refusal>
        ensures { result ≡ unless (why_not_wake self.task) (woken self.clock self.task) }
    {
        if self.task.phase != Phase::Waiting {
            return Err(Refusal::NotWaiting);
        }
        let given = whole_ticks(self.task.rate, self.until_deadline());
        Ok(moved_by(Event::Wake, self.task.left.min(given), self.task))
    }

    // What comes of a change; `rates` are the rates in force of all tasks, this one included.
    pub fn apply(self, rates: u32, change: Change) -> Result<Task, Refusal>
        requires in_time { self.clock ≤ 2 ^ 40 }
        requires shared { rates ≤ 1000 }
        requires part { self.task.rate ≤ rates }
        ensures { result ≡ changed self.clock rates self.task change }
    {
        match change {
            Change::Rate(rate) => self.change_rate(rates, rate),
            Change::Period(period) => self.change_period(period),
            Change::Wait => leave_ready(self.task, Event::Wait, self.task.left),
            Change::Wake => self.wake(),
            Change::Finish => leave_ready(self.task, Event::Finish, 0),
        }
    }
}
