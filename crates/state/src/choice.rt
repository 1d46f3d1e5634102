// Which leaf sends next.
ghost use Rattle.std.specs.Prelude.{◌≤◌};
ghost use Rattle.rules.specs.Limits.{last_tick};
ghost use Rattle.rules.specs.Choice.{GoesDown};
ghost use Rattle.state.specs.Heads.{SomeCalls, EveryCalls};
ghost use Rattle.state.specs.StepsChoosing.{Told, Soonest, Stepping, Lightest, Descending, Chosen};

use crate::table::{
    ACTIVE, CHILD, COUNT, DEADLINE, ELIGIBLE, LARGEST, SIBLING, VIRTUAL, Words, get, header,
};
use rules::Rule;

// The leaf whose head leaves, and the rule by which it does.
#[derive(Clone, Copy, PartialEq, Eq)]
pub struct Sender {
    pub class: usize,
    pub rule: Rule,
}

// Stays: as an enum of none or a leaf this walk took up to 10 percent more instructions (bench/README.md: 922 for 842, wide 32 bursty); no deadline is `LARGEST`.
// The real-time rule: of the leaves that are eligible now the one of smallest deadline, then of lowest
// number.
fn soonest(words: &Words, tick: u64) -> Option<usize>
    requires { SomeCalls (Told words.now) × (tick ≤ last_tick) }
    ensures { EveryCalls (Told words.now) (λ tree cs. Soonest tree cs tick result) }
{
    let count = header(words, COUNT) as usize;
    let mut best: usize = 0;
    let mut least: u64 = LARGEST;
    for i in 0..count {
        if get(words, i, ELIGIBLE) <= tick {
            let deadline = get(words, i, DEADLINE);
            if deadline < least {
                least = deadline;
                best = i;
            }
        }
    }
    if least == LARGEST { None } else { Some(best) }
}

// Stays: an iterator over the children, a list by numbers in the lent array, needs this loop's invariant as its own, and the loop is the shorter.
// The active child of smallest virtual time, then of lowest number.
fn lightest(words: &Words, class: usize) -> usize
    requires { SomeCalls (λ tree cs. Stepping words.now tree cs class) }
    ensures { EveryCalls (λ tree cs. Stepping words.now tree cs class) (λ tree cs. Lightest tree cs class result) }
{
    let mut best: usize = 0;
    let mut least: u64 = LARGEST;
    let mut child = get(words, class, CHILD) as usize;
    while child != 0 {
        if get(words, child, ACTIVE) != 0 {
            let time = get(words, child, VIRTUAL);
            if time < least {
                least = time;
                best = child;
            }
        }
        child = get(words, child, SIBLING) as usize;
    }
    best
}

// The fair rule: the choice goes down until it reaches a leaf. `depth` is how far it may still go.
fn descend(words: &Words, class: usize, depth: u32) -> usize
    requires { SomeCalls (λ tree cs. Descending words.now tree cs class depth) }
    ensures { EveryCalls (λ tree cs. Descending words.now tree cs class depth) (λ tree cs. GoesDown tree cs result class) }
{
    if depth == 0 || get(words, class, CHILD) == 0 {
        return class;
    }
    descend(words, lightest(words, class), depth - 1)
}

// The leaf whose head leaves now, and the rule; or nothing where none waits.
pub fn choose(words: &Words, tick: u64) -> Option<Sender>
    requires { SomeCalls (Told words.now) × (tick ≤ last_tick) }
    ensures { EveryCalls (Told words.now) (λ tree cs. Chosen tree cs tick result) }
{
    if let Some(class) = soonest(words, tick) {
        return Some(Sender {
            class,
            rule: Rule::RealTime,
        });
    }
    if get(words, 0, ACTIVE) == 0 {
        return None;
    }
    Some(Sender {
        class: descend(words, 0, tree::DEEPEST),
        rule: Rule::Fair,
    })
}
