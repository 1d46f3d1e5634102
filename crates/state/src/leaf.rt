// A leaf: its curve, its kept pieces, the bytes sent by the real-time rule, and the times of its head.
ghost use Rattle.std.specs.Prelude.{◌≡◌, ◌+◌, ◌≤◌, ◌<◌, ◌^◌};
ghost use Rattle.curve.specs.Curves.{Rising};
ghost use Rattle.curve.specs.Keeping.{most_bytes, kept_with};
ghost use Rattle.rules.specs.declared.Rule.TheVariants.{RealTime};
ghost use Rattle.state.specs.Table.{at, CLASSES};
ghost use Rattle.state.specs.Columns as col;
ghost use Rattle.state.specs.Heads.{SomeCalls, EveryCalls};
ghost use Rattle.state.specs.Steps.{curve_in, kept_in, with_kept, with_times, times_in, counted, NarrowCode, KeptSoon, Timable, RipeTick, DueTick, SentIsDue, BeforeTiming, AfterTiming, NextTimed};

use crate::table::{
    DEADLINE, ELIGIBLE, FIRST, FLAT_SENT, FLAT_START, KIND, SECOND, SENT_REAL_TIME, STEEP_SENT,
    STEEP_START, THIRD, Words, get, put,
};
use curve::codec::decode;
use curve::{Curve, Kept, Piece};
use rules::{Rule, Times};

// The class's curve, as the enum.
fn curve_of(words: &Words, class: usize) -> Curve
    requires { (class < CLASSES) × NarrowCode words.now class }
    ensures { result ≡ curve_in words.now class }
{
    let kind = get(words, class, KIND) as u32;
    let first = get(words, class, FIRST) as u32;
    let second = get(words, class, SECOND) as u32;
    let third = get(words, class, THIRD) as u32;
    decode(kind, first, second, third)
}

// The pieces kept of the leaf's history.
fn kept_of(words: &Words, class: usize) -> Kept
    requires { class < CLASSES }
    ensures { result ≡ kept_in words.now class }
{
    Kept {
        steep: Piece {
            start: get(words, class, STEEP_START),
            sent: get(words, class, STEEP_SENT),
        },
        flat: Piece {
            start: get(words, class, FLAT_START),
            sent: get(words, class, FLAT_SENT),
        },
    }
}

fn put_kept(words: &mut Words, class: usize, kept: Kept)
    requires { class < CLASSES }
    ensures { words.new ≡ with_kept words.old class kept }
{
    put(words, class, STEEP_START, kept.steep.start);
    put(words, class, STEEP_SENT, kept.steep.sent);
    put(words, class, FLAT_START, kept.flat.start);
    put(words, class, FLAT_SENT, kept.flat.sent);
}

// The eligible time and the deadline of the leaf's head: nothing else stores to these two columns.
pub fn put_times(words: &mut Words, class: usize, eligible: u64, deadline: u64)
    requires { class < CLASSES }
    ensures { words.new ≡ with_times words.old class eligible deadline }
{
    put(words, class, ELIGIBLE, eligible);
    put(words, class, DEADLINE, deadline);
}

// The eligible time and the deadline of the leaf's head, where it has a curve.
pub fn times_of(words: &Words, class: usize) -> Option<Times>
    requires { class < CLASSES }
    ensures { result ≡ times_in words.now class }
{
    if get(words, class, KIND) == 0 {
        return None;
    }
    Some(Times {
        eligible: get(words, class, ELIGIBLE),
        deadline: get(words, class, DEADLINE),
    })
}

// The bytes sent by the real-time rule.
pub fn count_bytes(words: &mut Words, class: usize, rule: Rule, bytes: u64)
    requires { (class < CLASSES) × (at words.old class col.SENT_REAL_TIME + bytes < 2 ^ 64) }
    ensures { words.new ≡ counted words.old class rule bytes }
{
    let sent = get(words, class, SENT_REAL_TIME);
    match rule {
        Rule::RealTime => put(words, class, SENT_REAL_TIME, sent + bytes),
        Rule::Fair => {}
    }
}

// The pieces kept after one more, which starts now.
fn add_piece(words: &mut Words, class: usize, tick: u64)
    requires { (class < CLASSES) × NarrowCode words.old class × Rising (curve_in words.old class) × (at words.old class col.SENT_REAL_TIME ≤ most_bytes) }
    ensures { words.new ≡ with_kept words.old class (kept_with (curve_in words.old class) (kept_in words.old class) (record { start = tick; sent = at words.old class col.SENT_REAL_TIME })) }
{
    let piece = Piece {
        start: tick,
        sent: get(words, class, SENT_REAL_TIME),
    };
    let kept = kept_of(words, class).with(curve_of(words, class), piece);
    put_kept(words, class, kept);
}

// The eligible time of the leaf's head.
fn ripe(words: &Words, class: usize) -> u64
    requires { (class < CLASSES) × NarrowCode words.now class × Rising (curve_in words.now class) × (at words.now class col.SENT_REAL_TIME ≤ most_bytes) × KeptSoon words.now class }
    ensures { RipeTick words.now class result }
{
    let sent = get(words, class, SENT_REAL_TIME);
    kept_of(words, class).eligible(curve_of(words, class), sent)
}

// The deadline of the leaf's head, of this length.
fn due(words: &Words, class: usize, length: u32) -> u64
    requires { (class < CLASSES) × Timable words.now class length }
    ensures { DueTick words.now class length result }
{
    let bytes = get(words, class, SENT_REAL_TIME) + rules::weigh(length);
    kept_of(words, class).deadline(curve_of(words, class), bytes)
}

// The piece of a backlog instant, and the times of the head.
pub fn time_first(words: &mut Words, class: usize, tick: u64, length: u32)
    requires { SomeCalls (λ tree cs. BeforeTiming words.old tree cs class tick length) }
    ensures { EveryCalls (λ tree cs. BeforeTiming words.old tree cs class tick length) (λ tree cs. AfterTiming words.old words.new tree cs class tick length) }
{
    if get(words, class, KIND) == 0 {
        return;
    }
    add_piece(words, class, tick);
    let eligible = ripe(words, class);
    let deadline = due(words, class, length);
    put_times(words, class, eligible, deadline);
}

// The eligible time of the leaf's new head, after one left by the real-time rule. It asks for the bytes that the
// old head's deadline asked for, so it is that deadline, but for a delayed curve, which is read without its delay.
fn ripe_next(words: &Words, class: usize) -> u64
    requires { (class < CLASSES) × NarrowCode words.now class × Rising (curve_in words.now class) × (at words.now class col.SENT_REAL_TIME ≤ most_bytes) × KeptSoon words.now class × SentIsDue words.now class }
    ensures { RipeTick words.now class result }
{
    if curve::amounts::is_undelayed(curve_of(words, class)) {
        return get(words, class, DEADLINE);
    }
    ripe(words, class)
}

// The times of the leaf's new head, after one left by that rule: the eligible time stays the same after
// a departure by the fair rule.
pub fn time_next(words: &mut Words, class: usize, rule: Rule, length: u32)
    requires { (class < CLASSES) × ((at words.old class col.KIND ≡ 0 → ⊥) → Timable words.old class length) × ((at words.old class col.KIND ≡ 0 → ⊥) → rule ≡ RealTime → SentIsDue words.old class) }
    ensures { NextTimed words.old words.new class length rule }
{
    if get(words, class, KIND) == 0 {
        return;
    }
    let eligible = match rule {
        Rule::RealTime => ripe_next(words, class),
        Rule::Fair => get(words, class, ELIGIBLE),
    };
    let deadline = due(words, class, length);
    put_times(words, class, eligible, deadline);
}
