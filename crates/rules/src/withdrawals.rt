// Withdrawal of a task: at once, or at its deadline.
ghost use Rattle.std.specs.Prelude.{◌≡◌};
ghost use Rattle.rules.specs.Withdrawals.{departure_of, withdrawn};

use crate::phases::Phase;
use crate::refusals::Refusal;
use crate::task_at::TaskAt;
use crate::tasks::Task;

// When a task that was withdrawn goes. Not an `Option<u64>`: `None` for "at once" would say less than its name.
#[derive(Clone, Copy, PartialEq, Eq, Debug)]
pub enum Departure {
    AtOnce,
    AtDeadline(u64),
}

impl TaskAt {
    // What the slot of a withdrawn task becomes: empty where the task goes at once, else the task marked as leaving.
    // It goes at once only where nobody would miss its time: a ready job that is not ahead of its rate.
    pub fn withdraw(self) -> Result<Option<Task>, Refusal>
        ensures { result ≡ withdrawn self.clock self.task }
    {
        if self.task.leaving {
            return Err(Refusal::NotReady);
        }
        if self.task.phase == Phase::Ready && self.may_lower() {
            return Ok(None);
        }
        Ok(Some(Task {
            leaving: true,
            ..self.task
        }))
    }
}

// When the task of a withdrawn slot goes.
impl From<Option<Task>> for Departure {
    ghost from_gives = { λ slot departure. departure ≡ departure_of slot };

    fn from(value: Option<Task>) -> Departure {
        value.map_or(
            Departure::AtOnce,
            |task| Departure::AtDeadline(task.deadline),
        )
    }
}
