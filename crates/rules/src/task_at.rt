// A task at a clock at which all is kept of it that is kept between calls.
ghost use Rattle.std.specs.Prelude.{◌≡◌, ◌-◌};
ghost use Rattle.rules.specs.Sound.{Sound};

use crate::tasks::Task;

#[derive(Clone, Copy)]
pub struct TaskAt {
    pub clock: u64,
    pub task: Task,
    pub ghost sound: { Sound clock task },
}

impl TaskAt {
    ghost use Rattle.rules.specs.Changes.{may_lower, share};

    pub(crate) fn until_deadline(self) -> u64
        ensures { result ≡ self.task.deadline - self.clock }
    {
        self.task.deadline - self.clock
    }

    // What the rate gives until the deadline, in thousandths.
    pub(crate) fn share(self) -> u64
        ensures { result ≡ share self.clock self.task }
    {
        u64::from(self.task.rate) * self.until_deadline()
    }

    // A job that has run no tick, or is not ahead of its rate, may be lowered.
    pub(crate) fn may_lower(self) -> bool
        ensures { result ≡ may_lower self.clock self.task }
    {
        self.task.ran == 0 || 1000 * self.task.left >= self.share()
    }
}
