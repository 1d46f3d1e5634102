// Why a departure would take from each leaf or not: a sheet with a line for every leaf. Nothing of the state is changed.

#![tactic(auto)]

ghost use Rattle.std.specs.Prelude.{◌≡◌, List, ℕ, ◌≤◌};
ghost use Rattle.rules.specs.Limits.{last_tick};
ghost use Rattle.state.specs.State.{Reached};
ghost use Rattle.state.specs.Heads.{Some, SomeCalls, EveryCalls, EveryHistory};
ghost use Rattle.state.specs.StepsChoosing.{Told};
ghost use Rattle.why.specs.Why.{Holds, LastCommon};
ghost use Rattle.why.specs.Promises.{line_count, WhyRight, WhyTold};
ghost use Rattle.why.specs.Steps.{Apart, AskedRealTime, AskedFair, Asked, Fillable, Filled};

use reason::{NUMBERS, Reason};
use rules::Rule;
use state::choice::{Sender, choose};
use state::table::{
    ACTIVE, CHILD, COUNT, DEADLINE, ELIGIBLE, KIND, Lengths, PARENT, VIRTUAL, Words, get, header,
};
use state::ticks::tick;
use tree::Refusal;

// The last class common to the ways up from two leaves, and its child on the second one's way.
#[derive(Clone, Copy, PartialEq, Eq)]
struct Parting {
    class: usize,
    child: usize,
}

// For every leaf, in number order, the reason why a departure with this stamp would take from it or not: how many lines
// the sheet got, or why it got none.
pub fn why(words: &Words, stamp: u32, sheet: &mut [u64]) -> Result<u64, Refusal>
    requires { Some (λ l. Reached words.now l) }
    ensures { (l : List ℕ) → EveryHistory words.now l (λ h. WhyRight h stamp result sheet.old sheet.new) }
{
    let now = tick(words, stamp)?;
    let lines = leaves(words);
    if sheet.len() < NUMBERS * lines {
        return Err(Refusal::SmallBuffer);
    }
    fill(words, now, sheet);
    Ok(lines as u64)
}

// The same in numbers, for hosts in C: 0, with the number of lines in `lines`, or the number of the refusal.
pub fn tell(words: &Words, lengths: &Lengths, stamp: u32, sheet: &mut [u64], lines: &mut u64) -> u32
    requires { Reached words.now lengths.now }
    ensures { WhyTold words.now lengths.now stamp sheet.old result lines.new sheet.new }
{
    match why(words, stamp, sheet) {
        Ok(count) => {
            *lines = count;
            0
        }
        Err(refusal) => {
            *lines = 0;
            tree::number(refusal)
        }
    }
}

// How many leaves there are.
fn leaves(words: &Words) -> usize
    requires { SomeCalls (Told words.now) }
    ensures { EveryCalls (Told words.now) (λ tree cs. result ≡ line_count tree) }
{
    let count = header(words, COUNT) as usize;
    let mut lines = 0;
    // Stays: as `filter` and `count` over the range its proof did not close: what `get` requires of a class is no `requires` of this function's own.
    for i in 0..count {
        if get(words, i, CHILD) == 0 {
            lines += 1;
        }
    }
    lines
}

// A line for every leaf, into a sheet with room for all.
fn fill(words: &Words, tick: u64, sheet: &mut [u64])
    requires { SomeCalls (λ tree cs. Fillable words.now tree cs tick sheet.old) }
    ensures { EveryCalls (λ tree cs. Fillable words.now tree cs tick sheet.old) (λ tree cs. Filled tree cs tick tree.count sheet.old sheet.new) }
{
    let count = header(words, COUNT) as usize;
    let sender = choose(words, tick);
    let mut at = 0;
    // Stays: the place goes on at a leaf alone; an iterator over the lines of the sheet would be asked for each by hand, and its `None` answered.
    for i in 0..count {
        if get(words, i, CHILD) == 0 {
            let reason = of_leaf(words, tick, sender, i);
            reason::put(sheet, at, i as u64, reason);
            at += NUMBERS;
        }
    }
}

// The reason of a leaf, where this is what the rules choose: something, where a packet waits.
fn of_leaf(words: &Words, tick: u64, sender: Option<Sender>, leaf: usize) -> Reason
    requires { SomeCalls (λ tree cs. Asked words.now tree cs tick sender leaf) }
    ensures { EveryCalls (λ tree cs. Asked words.now tree cs tick sender leaf) (λ tree cs. Holds tree cs tick leaf result) }
{
    if get(words, leaf, ACTIVE) == 0 {
        return Reason::NothingWaits;
    }
    let Some(sender) = sender else {
        return Reason::NothingWaits;
    };
    match sender.rule {
        Rule::RealTime => by_deadline(words, tick, sender.class, leaf),
        Rule::Fair => by_share(words, sender.class, leaf),
    }
}

// The reason of a leaf in which a packet waits, where the real-time rule chose that leaf.
fn by_deadline(words: &Words, tick: u64, chosen: usize, leaf: usize) -> Reason
    requires { SomeCalls (λ tree cs. AskedRealTime words.now tree cs tick chosen leaf) }
    ensures { EveryCalls (λ tree cs. AskedRealTime words.now tree cs tick chosen leaf) (λ tree cs. Holds tree cs tick leaf result) }
{
    if leaf == chosen {
        return Reason::ChosenByDeadline;
    }
    if get(words, leaf, KIND) == 0 {
        return Reason::NoCurve;
    }
    let eligible = get(words, leaf, ELIGIBLE);
    if tick < eligible {
        return Reason::NotEligible { until: eligible };
    }
    let number = chosen as u64;
    if get(words, chosen, DEADLINE) < get(words, leaf, DEADLINE) {
        return Reason::LaterDeadline { chosen: number };
    }
    Reason::HigherNumber { chosen: number }
}

// The reason of a leaf in which a packet waits, where the fair rule chose that leaf.
fn by_share(words: &Words, chosen: usize, leaf: usize) -> Reason
    requires { SomeCalls (λ tree cs. Some (λ tick. AskedFair words.now tree cs tick chosen leaf)) }
    ensures { (tick : ℕ) → EveryCalls (λ tree cs. AskedFair words.now tree cs tick chosen leaf) (λ tree cs. Holds tree cs tick leaf result) }
{
    if leaf == chosen {
        return Reason::ChosenByShare;
    }
    let parting = part(words, leaf, chosen);
    let time = get(words, parting.child, VIRTUAL);
    Reason::PassedOver {
        class: parting.class as u64,
        child: parting.child as u64,
        time,
    }
}

// Where the ways up from two leaves part. A parent has a lower number, so the way that stands at the higher one goes up.
fn part(words: &Words, leaf: usize, chosen: usize) -> Parting
    requires { SomeCalls (λ tree cs. Apart words.now tree cs leaf chosen) }
    ensures { EveryCalls (λ tree cs. Apart words.now tree cs leaf chosen) (λ tree cs. LastCommon tree leaf chosen result.class result.child) }
{
    let mut class = leaf;
    let mut other = chosen;
    let mut child = chosen;
    while class != other {
        if other < class {
            class = get(words, class, PARENT) as usize;
        } else {
            child = other;
            other = get(words, other, PARENT) as usize;
        }
    }
    Parting { class, child }
}
