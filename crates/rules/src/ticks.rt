// Whole ticks of what a rate gives over a span of time.
ghost use Rattle.std.specs.Prelude.{◌≡◌, ◌*◌, ◌^◌, ◌<◌, ◌≤◌};
ghost use Rattle.rules.specs.Changes.{rounded_down, rounded_up};

// Rounded down.
pub(crate) fn whole_ticks(rate: u32, span: u64) -> u64
    requires { rate * span < 2 ^ 64 }
    ensures value { result ≡ rounded_down (rate * span) }
    ensures few { rate ≤ 1000 → result ≤ span }
{
    u64::from(rate) * span / 1000
}

// Rounded up.
pub(crate) fn ticks_to_cover(rate: u32, span: u64) -> u64
    requires { rate * span < 2 ^ 64 }
    ensures { result ≡ rounded_up (rate * span) }
{
    (u64::from(rate) * span).div_ceil(1000)
}
