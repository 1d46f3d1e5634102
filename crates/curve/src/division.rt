// The earliest tick at which a curve has reached an amount: a quotient, by kind of curve. There is no loop, so
// the number of steps does not depend on the numbers.
ghost use Rattle.std.specs.Prelude.{◌*◌, ◌≤◌};
ghost use Rattle.curve.specs.Answers.{Least};
ghost use Rattle.curve.specs.Curves.{RightRate, Rising, in_parts};
ghost use Rattle.curve.specs.Keeping.{Reaches, most_bytes};

use crate::Curve;

// The ticks in which a line of that rate rises by the parts: their quotient, rounded up.
fn rise_time(rate: u32, parts: u64) -> u64
    requires { RightRate rate × (parts ≤ in_parts most_bytes) }
    ensures { Least (λ t. parts ≤ rate * t) result }
{
    parts.div_ceil(u64::from(rate))
}

impl Curve {
    // The earliest tick at which the curve has reached the parts. Where there is no curve it is not asked.
    #[tactic(auto, unfolding(crate::specs::Curves::Rising))]
    pub(crate) fn earliest(self, parts: u64) -> u64
        requires { Rising self × (parts ≤ in_parts most_bytes) }
        ensures { Least (Reaches self parts) result }
    {
        match self {
            Curve::None => 0,
            Curve::Straight { rate } => rise_time(rate, parts),
            // On its first slope as far as it has risen at the bend, and past it on its last.
            Curve::FrontLoaded { first, bend, last } => {
                let turn = u64::from(first) * u64::from(bend);
                if parts <= turn {
                    rise_time(first, parts)
                } else {
                    u64::from(bend) + rise_time(last, parts - turn)
                }
            }
            // Where no parts are asked for it has them at once, and others past the bend.
            Curve::Delayed { .. } if parts == 0 => 0,
            Curve::Delayed { bend, rate } => u64::from(bend) + rise_time(rate, parts),
        }
    }
}
