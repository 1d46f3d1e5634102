// What a curve has reached at a tick, its slopes, and whether its numbers are within the limits.
ghost use Rattle.std.specs.Prelude.{◌≡◌, ◌*◌, ◌≤◌};
ghost use Rattle.curve.specs.Answers.{Exactly};
ghost use Rattle.curve.specs.Curves.{RightRate, RightBend, amount, in_parts, first_slope, last_slope};
ghost use Rattle.curve.specs.Keeping.{most_bytes, early};
ghost use Rattle.curve.specs.Promises.{TellsRight, TellsUndelayed};

use crate::{Curve, LATEST_BEND, WHOLE};

fn right_rate(rate: u32) -> bool
    ensures { Exactly result (RightRate rate) }
{
    (1..=WHOLE).contains(&rate)
}

fn right_bend(bend: u32) -> bool
    ensures { Exactly result (RightBend bend) }
{
    (1..=LATEST_BEND).contains(&bend)
}

// Whether the curve's numbers are within the limits.
#[tactic(auto, unfolding(crate::specs::Curves::RightCurve))]
pub fn right(curve: Curve) -> bool
    ensures { TellsRight curve result }
{
    match curve {
        Curve::None => true,
        Curve::Straight { rate } => right_rate(rate),
        Curve::FrontLoaded { first, bend, last } => right_rate(first)
            && right_bend(bend)
            && right_rate(last)
            && last < first,
        Curve::Delayed { bend, rate } => right_bend(bend) && right_rate(rate),
    }
}

// What the ticks are halved by where they are many.
const HALF: u64 = 1 << 32;

// Whether a line of that rate has risen by the parts in the ticks, however many. Below 2^47 ticks 64 bits
// hold the product. Past it they need not, so the ticks are taken in two halves: 2^25 times 2^32 is as
// much as can be asked for.
pub(crate) fn has_risen(rate: u32, ticks: u64, parts: u64) -> bool
    requires { RightRate rate × (parts ≤ in_parts most_bytes) }
    ensures { Exactly result (parts ≤ rate * ticks) }
{
    let rate = u64::from(rate);
    if ticks < 1 << 47 {
        return parts <= rate * ticks;
    }
    let high = rate * (ticks / HALF);
    1 << 25 <= high || parts <= HALF * high + rate * (ticks % HALF)
}

impl Curve {
    // The parts that the curve has reached at a tick of 32 bits: 64 bits hold them.
    #[tactic(auto, unfolding(crate::specs::Curves::amount))]
    pub(crate) fn reached(self, tick: u32) -> u64
        ensures { result ≡ amount self tick }
    {
        let tick = u64::from(tick);
        match self {
            Curve::None => 0,
            Curve::Straight { rate } => u64::from(rate) * tick,
            Curve::FrontLoaded { first, bend, last } => {
                let bend = u64::from(bend);
                u64::from(first) * tick.min(bend) + u64::from(last) * tick.saturating_sub(bend)
            }
            Curve::Delayed { bend, rate } => u64::from(rate) * tick.saturating_sub(u64::from(bend)),
        }
    }

    // The slope before the bend.
    pub(crate) fn first_slope(self) -> u32
        ensures { result ≡ first_slope self }
    {
        match self {
            Curve::None => 0,
            Curve::FrontLoaded { first, .. } => first,
            Curve::Straight { rate } | Curve::Delayed { rate, .. } => rate,
        }
    }

    // The slope after the bend.
    pub(crate) fn last_slope(self) -> u32
        ensures { result ≡ last_slope self }
    {
        match self {
            Curve::None => 0,
            Curve::FrontLoaded { last, .. } => last,
            Curve::Straight { rate } | Curve::Delayed { rate, .. } => rate,
        }
    }

    // The curve that the eligible time goes by: a delayed one without its delay.
    pub(crate) fn undelayed(self) -> Curve
        ensures { result ≡ early self }
    {
        match self {
            Curve::Delayed { rate, .. } => Curve::Straight { rate },
            other => other,
        }
    }
}

// Whether the curve is that already: the eligible time goes by the curve as it is.
pub fn is_undelayed(curve: Curve) -> bool
    ensures { TellsUndelayed curve result }
{
    !matches!(curve, Curve::Delayed { .. })
}
