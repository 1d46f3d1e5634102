// The pieces that are worth keeping, and what they are asked.
ghost use Rattle.std.specs.Prelude.{◌≤◌};
ghost use Rattle.curve.specs.Curves.{Rising, RightRate};
ghost use Rattle.curve.specs.Keeping.{most_bytes, most_start};
ghost use Rattle.curve.specs.Promises.{LowerPiece, ArrivesAt, KeptAfter, DueAt, EligibleAt};

use crate::amounts::has_risen;
use crate::{BYTE, Curve, Kept, Piece};

// Of an old piece and a new one, the one that is lower on a line of that rate from there on.
pub fn lower(rate: u32, old: Piece, new: Piece) -> Piece
    requires { RightRate rate × (new.sent ≤ most_bytes) }
    ensures { LowerPiece rate old new result }
{
    let rise = BYTE * new.sent.saturating_sub(old.sent);
    if has_risen(rate, new.start.saturating_sub(old.start), rise) {
        new
    } else {
        old
    }
}

// The earliest tick, not before its start, at which the piece stands at that many bytes.
pub fn arrival(curve: Curve, piece: Piece, bytes: u64) -> u64
    requires { Rising curve × (bytes ≤ most_bytes) × (piece.start ≤ most_start) }
    ensures { ArrivesAt curve piece bytes result }
{
    piece.start + curve.earliest(BYTE * bytes.saturating_sub(piece.sent))
}

impl Kept {
    // What is kept after one piece more.
    pub fn with(self, curve: Curve, piece: Piece) -> Kept
        requires { Rising curve × (piece.sent ≤ most_bytes) }
        ensures { KeptAfter curve self piece result }
    {
        Kept {
            steep: lower(curve.first_slope(), self.steep, piece),
            flat: lower(curve.last_slope(), self.flat, piece),
        }
    }

    // The earliest tick at which that many bytes are due: both pieces stand so. They are one piece always where the curve has
    // one slope, and then it is asked once. It is compiled into its callers: a call would hand curve and pieces over in memory.
    #[inline(always)]
    pub fn deadline(self, curve: Curve, bytes: u64) -> u64
        requires { Rising curve × (bytes ≤ most_bytes) × (self.steep.start ≤ most_start) × (self.flat.start ≤ most_start) }
        ensures { DueAt curve self bytes result }
    {
        let steep = arrival(curve, self.steep, bytes);
        if self.steep == self.flat {
            return steep;
        }
        steep.max(arrival(curve, self.flat, bytes))
    }

    // The earliest tick at which the leaf may send more than that many bytes: the same without the delay.
    pub fn eligible(self, curve: Curve, bytes: u64) -> u64
        requires { Rising curve × (bytes ≤ most_bytes) × (self.steep.start ≤ most_start) × (self.flat.start ≤ most_start) }
        ensures { EligibleAt curve self bytes result }
    {
        self.deadline(curve.undelayed(), bytes)
    }
}
