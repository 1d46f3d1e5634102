// The clock and the line card's stamps.
ghost use Rattle.std.specs.Prelude.{◌≡◌, ◌≤◌, ◌<◌, ◌^◌};
ghost use Rattle.state.specs.Table.{header_at, with_header};
ghost use Rattle.state.specs.Columns as col;
ghost use Rattle.state.specs.Steps.{tick_of};
ghost use Rattle.curve.specs.Answers.{Exactly};
ghost use Rattle.rules.specs.Limits as limits;
ghost use Rattle.rules.specs.Clock.{elapsed_ticks};

use crate::table::{CLOCK, STAMP, Words, header, put_header};
use tree::Refusal;

// Refusal 14: "elapsed ticks are 2^31 or more".
fn too_far(stamp: u32, last: u32) -> bool
    ensures { Exactly result (limits.too_far ≤ elapsed_ticks stamp last) }
{
    rules::TOO_FAR <= rules::elapsed(stamp, last)
}

// The clock after a call with this stamp, or why the call is refused: refusal 14, then 15: "clock would pass 2^40".
pub fn tick(words: &Words, stamp: u32) -> Result<u64, Refusal>
    requires { (header_at words.now col.CLOCK ≤ limits.last_tick) × (header_at words.now col.STAMP < 2 ^ 32) }
    ensures { result ≡ tick_of (header_at words.now col.CLOCK) (header_at words.now col.STAMP) stamp }
{
    let last = header(words, STAMP) as u32;
    if too_far(stamp, last) {
        return Err(Refusal::StampTooFar);
    }
    let now = header(words, CLOCK) + rules::elapsed(stamp, last) as u64;
    if rules::LAST_TICK < now {
        return Err(Refusal::ClockFull);
    }
    Ok(now)
}

// The clock and the kept stamp after a call that was not refused.
pub fn move_clock(words: &mut Words, tick: u64, stamp: u32)
    ensures { words.new ≡ with_header (with_header words.old col.CLOCK tick) col.STAMP stamp }
{
    put_header(words, CLOCK, tick);
    put_header(words, STAMP, stamp as u64);
}
