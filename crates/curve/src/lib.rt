// Arithmetic on service curves: what a curve has reached, whether curves fit the link, the earliest
// tick at which an amount is reached, and the pieces that are worth keeping. It knows nothing of
// classes, packets or files.

#![tactic(auto)]

pub mod amounts;
pub mod codec;
mod division;
pub mod fit;
pub mod pieces;

// The parts that are one byte per tick: the link's rate, and the most that a rate or a share may be.
pub const WHOLE: u32 = 65536;

// The same in 64 bits: the parts of a byte, and what the link sends in a tick.
pub(crate) const BYTE: u64 = WHOLE as u64;

// The latest bend, in ticks.
pub const LATEST_BEND: u32 = 1 << 20;

// A real-time curve with its numbers: rates in parts, bends in ticks.
// Stays: document 01 asks for it, under 'Which form each place takes': a curve enum of none, straight, front-loaded, delayed.
#[derive(Clone, Copy, PartialEq, Eq)]
pub enum Curve {
    None,
    Straight { rate: u32 },
    FrontLoaded { first: u32, bend: u32, last: u32 },
    Delayed { bend: u32, rate: u32 },
}

// A piece of a leaf's or a class's history: the tick, or the mark, at which it starts, and the bytes
// sent before.
#[derive(Clone, Copy, PartialEq, Eq)]
pub struct Piece {
    pub start: u64,
    pub sent: u64,
}

// The two pieces that stand for a whole list of them: the lowest on the curve's first slope and the
// lowest on its last.
#[derive(Clone, Copy, PartialEq, Eq)]
pub struct Kept {
    pub steep: Piece,
    pub flat: Piece,
}
