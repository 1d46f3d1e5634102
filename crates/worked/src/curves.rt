// The curve layer asked directly, where no call of the scheduler asks it so.
ghost use Rattle.std.specs.Prelude.{◌≤◌};
ghost use Rattle.curve.specs.Curves.{RightRate, RightFront, RightDelay};
ghost use Rattle.curve.specs.Keeping.{most_bytes};

use console::println;
use curve::{Curve, Kept, Piece};
use std::io;

pub fn run(rt: &(impl Print + Eprint)) -> io::Result<()> {
    first_place(rt)?;
    one_piece(rt)?;
    straight(rt)?;
    front_loaded(rt)?;
    delayed(rt)?;
    far_apart(rt)
}

// At the place of class 0 no tree has a curve. At tick 1 these have 65,537 parts.
fn first_place(rt: &(impl Print + Eprint)) -> io::Result<()> {
    println(
        rt,
        "# front-loaded 65,536 / 1 / 1 at the first place, with straight 1",
    )?;
    let mut curves = [Curve::None; 64];
    curves[0] = Curve::FrontLoaded {
        first: 65536,
        bend: 1,
        last: 1,
    };
    curves[1] = Curve::Straight { rate: 1 };
    if curve::fit::fits(curves) {
        println(rt, "fit")
    } else {
        println(rt, "do not fit")
    }
}

// A piece, and both kept pieces where they are one.
fn one_piece(rt: &(impl Print + Eprint)) -> io::Result<()> {
    println(rt, "# a piece of 20 bytes from tick 0 at the link's rate")?;
    let curve = Curve::Straight { rate: 65536 };
    let piece = Piece { start: 0, sent: 20 };
    let kept = Kept {
        steep: piece,
        flat: piece,
    };
    tell(
        rt,
        "100 bytes at",
        curve::pieces::arrival(curve, piece, 100),
    )?;
    tell(rt, "100 bytes due at", kept.deadline(curve, 100))?;
    tell(rt, "100 bytes eligible at", kept.eligible(curve, 100))
}

// As `100 bytes at 20`.
fn tell(rt: &(impl Print + Eprint), what: &str, tick: u64) -> io::Result<()> {
    println(rt, format_args!("{what} {tick}"))
}

const PIECE: Piece = Piece { start: 10, sent: 0 };

// The tick at which a piece from tick 10 on stands at that many bytes, by kind of curve.
fn on_straight(rate: u32, bytes: u64) -> u64
    requires { RightRate rate × (bytes ≤ most_bytes) }
{
    curve::pieces::arrival(Curve::Straight { rate }, PIECE, bytes)
}

fn on_front_loaded(first: u32, bend: u32, last: u32, bytes: u64) -> u64
    requires { RightFront first bend last × (bytes ≤ most_bytes) }
{
    curve::pieces::arrival(Curve::FrontLoaded { first, bend, last }, PIECE, bytes)
}

fn on_delayed(bend: u32, rate: u32, bytes: u64) -> u64
    requires { RightDelay bend rate × (bytes ≤ most_bytes) }
{
    curve::pieces::arrival(Curve::Delayed { bend, rate }, PIECE, bytes)
}

// 65,536 by 3 is 21,845 and a third; three bytes divide exactly.
fn straight(rt: &(impl Print + Eprint)) -> io::Result<()> {
    println(rt, "# straight 3 from tick 10")?;
    tell(rt, "1 byte at", on_straight(3, 1))?;
    tell(rt, "3 bytes at", on_straight(3, 3))
}

// Two ticks a byte up to the bend, which has 50 bytes; past it as above.
fn front_loaded(rt: &(impl Print + Eprint)) -> io::Result<()> {
    println(rt, "# front-loaded 32,768 / 100 / 3 from tick 10")?;
    tell(rt, "49 bytes at", on_front_loaded(32768, 100, 3, 49))?;
    tell(rt, "50 bytes at", on_front_loaded(32768, 100, 3, 50))?;
    tell(rt, "51 bytes at", on_front_loaded(32768, 100, 3, 51))
}

// No byte is there at once; the first is 2 ticks past the bend.
fn delayed(rt: &(impl Print + Eprint)) -> io::Result<()> {
    println(rt, "# delayed 100 / 32,768 from tick 10")?;
    tell(rt, "no bytes at", on_delayed(100, 32768, 0))?;
    tell(rt, "1 byte at", on_delayed(100, 32768, 1))
}

// 2^57 parts in 2^48 marks: at the link's rate the old piece has risen by 2^64 parts, and is above the new one; at a
// rate of 1 by 2^48, and is below.
fn far_apart(rt: &(impl Print + Eprint)) -> io::Result<()> {
    println(
        rt,
        "# a piece from mark 2^48 with 2^41 bytes, and one from 0 with none",
    )?;
    let old = Piece { start: 0, sent: 0 };
    let new = Piece {
        start: 281474976710656,
        sent: 2199023255552,
    };
    tell(
        rt,
        "at rate 65536 the lower from",
        curve::pieces::lower(65536, old, new).start,
    )?;
    tell(
        rt,
        "at rate 1 the lower from",
        curve::pieces::lower(1, old, new).start,
    )
}
