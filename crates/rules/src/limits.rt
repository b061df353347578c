// What rates and periods may be, each limit with its refusal.
ghost use Rattle.std.specs.Prelude.{◌≡◌, ◌+◌, ◌*◌, ◌≤◌, Err, Ok, cond, nat_lt};
ghost use Rattle.rules.specs.Admission.{within};
ghost use Rattle.rules.specs.declared.refusals.Refusal.TheVariants.{JobTooSmall, PeriodOutOfRange, RateOutOfRange, RatesExceeded};

use crate::jobs::grant;
use crate::refusals::Refusal;

// The whole processor, in thousandths.
const FULL_RATE: u32 = 1000;

const LONGEST_PERIOD: u32 = 1_000_000;

// A value from 1 to its most.
fn check_within(most: u32, value: u32, otherwise: Refusal) -> Result<(), Refusal>
    ensures { result ≡ cond (within 1 most value) (Ok tt) (Err otherwise) }
{
    if !(1..=most).contains(&value) {
        return Err(otherwise);
    }
    Ok(())
}

pub(crate) fn check_rate(rate: u32) -> Result<(), Refusal>
    ensures { result ≡ cond (within 1 1000 rate) (Ok tt) (Err RateOutOfRange) }
{
    check_within(FULL_RATE, rate, Refusal::RateOutOfRange)
}

pub(crate) fn check_period(period: u32) -> Result<(), Refusal>
    ensures { result ≡ cond (within 1 1000000 period) (Ok tt) (Err PeriodOutOfRange) }
{
    check_within(LONGEST_PERIOD, period, Refusal::PeriodOutOfRange)
}

// A job has a tick at least.
pub(crate) fn check_worth(rate: u32, period: u32) -> Result<(), Refusal>
    ensures { result ≡ cond (nat_lt (rate * period) 1000) (Err JobTooSmall) (Ok tt) }
{
    if grant(rate, period) == 0 {
        return Err(Refusal::JobTooSmall);
    }
    Ok(())
}

// A rate fits beside those of the other tasks.
pub(crate) fn check_shared(others: u32, rate: u32) -> Result<(), Refusal>
    requires { rate ≤ 1000 }
    ensures { result ≡ cond (nat_lt 1000 (others + rate)) (Err RatesExceeded) (Ok tt) }
{
    if others > FULL_RATE - rate {
        return Err(Refusal::RatesExceeded);
    }
    Ok(())
}
