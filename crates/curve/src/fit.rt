// Whether curves fit the link.
ghost use Rattle.std.specs.Prelude.{◌≡◌, ◌≤◌};
ghost use Rattle.curve.specs.Answers.{Exactly};
ghost use Rattle.curve.specs.Curves.{whole, in_parts, bend_of};
ghost use Rattle.curve.specs.Fit.{WorksOut, sum_of, total, slopes};
ghost use Rattle.curve.specs.Promises.{TellsFit};

use crate::{BYTE, Curve};

// How many curves are tested together. Where there are fewer the rest are none.
pub const CURVES: usize = 64;

impl Curve {
    // The tick at which the curve's slope changes, or 0.
    fn bend(self) -> u32
        ensures { result ≡ bend_of self }
    {
        match self {
            Curve::None | Curve::Straight { .. } => 0,
            Curve::FrontLoaded { bend, .. } | Curve::Delayed { bend, .. } => bend,
        }
    }
}

// Whether the sum of a number that each curve has is at most that.
fn sum_fits<F: Fn(Curve) -> u64>(curves: &[Curve; CURVES], most: u64, number: F) -> bool
    requires { F.IsAlwaysCallable number }
    ensures { (f : _) → WorksOut (F.post number) f → Exactly result (sum_of f curves.now ≤ most) }
{
    let mut left = most;
    for curve in curves {
        let Some(rest) = left.checked_sub(number(*curve)) else {
            return false;
        };
        left = rest;
    }
    true
}

// Whether the sum of what the curves have reached at a tick is at most what the link sends by then.
fn fits_at(curves: &[Curve; CURVES], tick: u32) -> bool
    ensures { Exactly result (total curves.now tick ≤ in_parts tick) }
{
    sum_fits(curves, BYTE * u64::from(tick), |curve| curve.reached(tick))
}

// Whether the sum of the last slopes is at most the link's rate.
fn slopes_fit(curves: &[Curve; CURVES]) -> bool
    ensures { Exactly result (slopes curves.now ≤ whole) }
{
    sum_fits(curves, BYTE, |curve| u64::from(curve.last_slope()))
}

// Whether the curves fit: at every whole t the sum of all of them is at most what the link sends. Between two
// bends each is straight, so the bends and the last slopes are enough to look at.
pub fn fits(curves: [Curve; CURVES]) -> bool
    ensures { TellsFit curves result }
{
    for curve in &curves {
        if !fits_at(&curves, curve.bend()) {
            return false;
        }
    }
    slopes_fit(&curves)
}
