// Who may be admitted, and the task that comes of it.
ghost use Rattle.std.specs.Prelude.{◌≡◌, ◌^◌, ◌≤◌};
ghost use Rattle.rules.specs.Admission.{admission, admitted};

use crate::jobs::grant;
use crate::limits::{check_period, check_rate, check_shared, check_worth};
use crate::phases::Phase;
use crate::refusals::Refusal;
use crate::tasks::Task;
use order::entries::is_task_number;

// What is asked for: a task number, a rate in thousandths and a period in ticks.
#[derive(Clone, Copy)]
pub struct Reservation {
    pub number: u32,
    pub rate: u32,
    pub period: u32,
}

// The task that is admitted at `clock`, or why it is not. `taken`: a task has the number;
// `rates`: the rates in force of all tasks.
pub fn admit(clock: u64, taken: bool, rates: u32, asked: Reservation) -> Result<Task, Refusal>
    requires { clock ≤ 2 ^ 40 }
    ensures { result ≡ admission clock taken rates asked }
{
    if !is_task_number(asked.number) {
        return Err(Refusal::NoSuchTask);
    }
    if taken {
        return Err(Refusal::NumberTaken);
    }
    check_rate(asked.rate)?;
    check_period(asked.period)?;
    check_worth(asked.rate, asked.period)?;
    check_shared(rates, asked.rate)?;
    Ok(first_job(clock, asked))
}

fn first_job(clock: u64, asked: Reservation) -> Task
    requires { clock ≤ 2 ^ 40 }
    ensures { result ≡ admitted clock asked }
{
    Task {
        number: asked.number,
        rate: asked.rate,
        period: asked.period,
        phase: Phase::Ready,
        leaving: false,
        release: clock,
        deadline: clock + u64::from(asked.period),
        left: grant(asked.rate, asked.period),
        ran: 0,
    }
}
