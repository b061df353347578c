// Why a call is refused, each reason with its number.
ghost use Rattle.std.specs.Prelude.{◌≡◌};
ghost use Rattle.rules.specs.Refusals.{code};

#[derive(Clone, Copy, PartialEq, Eq, Debug)]
pub enum Refusal {
    NoSuchTask = 5,
    NumberTaken = 6,
    NotReady = 7,
    NotWaiting = 8,
    RateOutOfRange = 9,
    PeriodOutOfRange = 10,
    JobTooSmall = 11,
    RatesExceeded = 12,
    AheadOfRate = 13,
    BehindRate = 14,
    TooFewTicks = 15,
    CountTooHigh = 16,
    ClockAtEnd = 17,
}

impl From<Refusal> for u8 {
    ghost from_gives = { λ why number. number ≡ code why };

    fn from(why: Refusal) -> u8 {
        why as u8
    }
}
