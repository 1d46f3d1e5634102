// A class among its parent's children: marks, fair pieces, virtual times, and who is active. These are
// steps that the scheduler's calls are made of; hosts call `sched`.

#![tactic(auto)]

ghost use Rattle.std.specs.Prelude.{◌≡◌, List, ℕ, ◌<◌};
ghost use Rattle.tree.specs.declared.Tree.{Tree};
ghost use Rattle.rules.specs.Calls.{Call};
ghost use Rattle.curve.specs.Curves.{RightRate};
ghost use Rattle.state.specs.Table.{at, CLASSES};
ghost use Rattle.state.specs.Heads.{Some, SomeCalls, EveryCalls};
ghost use Rattle.state.specs.Columns.{SHARE};
ghost use Rattle.fair.specs.StepsWaking.{Raises, VirtualStored, other_in, spread_with, spread_below, met_in, Family, BeforeStart, FairStarted, BeforeTurn, AfterTurn};
ghost use Rattle.fair.specs.StepsResting.{BeforePassing, AfterPassing, BeforeLifting, AfterLifting};
ghost use Rattle.fair.specs.Steps.{fair_in, BeforeWaking, AfterWaking, BeforeRaise, AfterRaise, BeforeRest, AfterRest};

use curve::{Curve, Piece};
use state::table::{
    ACTIVE, CHILD, FAIR_SENT, FAIR_START, LARGEST, MARK, PARENT, SENT, SHARE, SIBLING, VIRTUAL,
    Words, get, put,
};

// Of a class's children: whether one is active, without the one that turns active, with the smallest
// and the largest of their virtual times; and the largest virtual time of all children.
// Stays: as an `Option` of the two it was proved too, and missed the bar that no row of `bench/run count` takes more than before: up to 9 percent (2,224 for 2,040, 63 leaves emptied).
#[derive(Clone, Copy, PartialEq, Eq)]
pub struct Spread {
    pub any: bool,
    pub low: u64,
    pub high: u64,
    pub last: u64,
}

impl Spread {
    // One child more, with its virtual time.
    fn with(self, virtual_time: u64, other: bool) -> Spread
        ensures { result ≡ spread_with self virtual_time other }
    {
        let last = virtual_time.max(self.last);
        if other {
            Spread {
                any: true,
                low: virtual_time.min(self.low),
                high: virtual_time.max(self.high),
                last,
            }
        } else {
            Spread { last, ..self }
        }
    }
}

// Whether a child is active, and another than the one that turns active.
#[tactic(auto, unfolding(crate::specs::StepsWaking::other_in))]
fn is_other(words: &Words, child: usize, class: usize) -> bool
    requires { child < CLASSES }
    ensures { result ≡ other_in words.now class child }
{
    child != class && get(words, child, ACTIVE) != 0
}

// The children of a class as the one child turns active.
fn spread_of(words: &Words, parent: usize, class: usize) -> Spread
    requires { Some (λ tree. Family words.now tree parent) }
    ensures { (tree : Tree) → Family words.now tree parent → result ≡ spread_below words.now tree parent class tree.count }
{
    let mut spread = Spread {
        any: false,
        low: LARGEST,
        high: 0,
        last: 0,
    };
    let mut child = get(words, parent, CHILD) as usize;
    // Stays: an iterator over the children, a list by numbers in the lent array, needs this loop's invariant as its own, and the loop is the shorter.
    while child != 0 {
        let other = is_other(words, child, class);
        spread = spread.with(get(words, child, VIRTUAL), other);
        child = get(words, child, SIBLING) as usize;
    }
    spread
}

// "with other children active, the smallest plus the largest of their virtual times, halved and rounded
// down; with none active, the largest virtual time that any child had when it last turned passive".
fn mark_by_children(words: &Words, parent: usize, class: usize) -> u64
    requires { Some (λ tree. Family words.now tree parent) }
    ensures { (tree : Tree) → Family words.now tree parent → result ≡ met_in words.now tree parent class }
{
    let spread = spread_of(words, parent, class);
    if spread.any {
        (spread.low + spread.high) / 2
    } else {
        spread.last
    }
}

// The class's share, as a rate.
fn share_of(words: &Words, class: usize) -> u32
    requires { (class < CLASSES) × RightRate (at words.now class SHARE) }
    ensures { result ≡ at words.now class SHARE }
{
    get(words, class, SHARE) as u32
}

// The piece kept of the class's fair pieces.
fn fair_piece(words: &Words, class: usize) -> Piece
    requires { class < CLASSES }
    ensures { result ≡ fair_in words.now class }
{
    Piece {
        start: get(words, class, FAIR_START),
        sent: get(words, class, FAIR_SENT),
    }
}

// The class's virtual time, worked out anew.
fn bring_up(words: &mut Words, class: usize)
    requires { Raises words.old class }
    ensures { VirtualStored words.old words.new class }
{
    let rate = share_of(words, class);
    let sent = get(words, class, SENT);
    let piece = fair_piece(words, class);
    let time = curve::pieces::arrival(Curve::Straight { rate }, piece, sent);
    put(words, class, VIRTUAL, time);
}

// The parent's mark, and the class's fair piece that starts there.
fn start_fair(words: &mut Words, parent: usize, class: usize)
    requires { Some (λ tree. BeforeStart words.old tree parent class) }
    ensures { (tree : Tree) → BeforeStart words.old tree parent class → FairStarted words.old words.new tree parent class }
{
    let mark = get(words, parent, MARK).max(mark_by_children(words, parent, class));
    let piece = Piece {
        start: mark,
        sent: get(words, class, SENT),
    };
    let kept = curve::pieces::lower(share_of(words, class), fair_piece(words, class), piece);
    put(words, parent, MARK, mark);
    put(words, class, FAIR_START, kept.start);
    put(words, class, FAIR_SENT, kept.sent);
    bring_up(words, class);
}

// A packet has come into the empty leaf: it turns active, and what is above it.
pub fn wake(words: &mut Words, leaf: usize)
    requires { SomeCalls (λ tree cs. BeforeWaking words.old tree cs leaf) }
    ensures { EveryCalls (λ tree cs. BeforeWaking words.old tree cs leaf) (λ tree cs. AfterWaking words.old words.new tree cs leaf) }
{
    put(words, leaf, ACTIVE, 1);
    turn_active(words, leaf);
}

// "An arrival turns the leaf active, then its parent if that was passive, and so upward."
fn turn_active(words: &mut Words, class: usize)
    requires { SomeCalls (λ tree cs. Some (λ leaf. BeforeTurn words.old tree cs leaf class)) }
    ensures { (tree : Tree) (cs : List Call) (leaf : ℕ) → BeforeTurn words.old tree cs leaf class → AfterTurn words.old words.new tree cs leaf class }
{
    if class == 0 {
        return;
    }
    let parent = get(words, class, PARENT) as usize;
    let busy = get(words, parent, ACTIVE);
    start_fair(words, parent, class);
    put(words, parent, ACTIVE, busy + 1);
    if busy == 0 {
        turn_active(words, parent);
    }
}

// "the counts and virtual times of the leaf and all above it are brought up".
pub fn raise(words: &mut Words, leaf: usize, bytes: u64)
    requires { SomeCalls (λ tree cs. BeforeRaise words.old tree cs leaf bytes) }
    ensures { EveryCalls (λ tree cs. BeforeRaise words.old tree cs leaf bytes) (λ tree cs. AfterRaise words.old words.new tree cs leaf) }
{
    raise_from(words, leaf, bytes);
}

// From the class on, up to the root.
fn raise_from(words: &mut Words, class: usize, bytes: u64)
    requires { SomeCalls (λ tree cs. Some (λ leaf. BeforeLifting words.old tree cs leaf bytes class)) }
    ensures { (tree : Tree) (cs : List Call) (leaf : ℕ) → BeforeLifting words.old tree cs leaf bytes class → AfterLifting words.old words.new tree cs leaf class }
{
    let sent = get(words, class, SENT);
    put(words, class, SENT, sent + bytes);
    if class == 0 {
        return;
    }
    bring_up(words, class);
    let parent = get(words, class, PARENT) as usize;
    raise_from(words, parent, bytes);
}

// The leaf's last packet has left: "then emptied classes turn passive".
pub fn rest(words: &mut Words, leaf: usize)
    requires { SomeCalls (λ tree cs. BeforeRest words.old tree cs leaf) }
    ensures { EveryCalls (λ tree cs. BeforeRest words.old tree cs leaf) (λ tree cs. AfterRest words.old words.new tree cs leaf) }
{
    put(words, leaf, ACTIVE, 0);
    turn_passive(words, leaf);
}

// A class has turned passive, and what is above it may.
fn turn_passive(words: &mut Words, class: usize)
    requires { SomeCalls (λ tree cs. Some (λ leaf. BeforePassing words.old tree cs leaf class)) }
    ensures { (tree : Tree) (cs : List Call) (leaf : ℕ) → BeforePassing words.old tree cs leaf class → AfterPassing words.old words.new tree cs leaf class }
{
    if class == 0 {
        return;
    }
    let parent = get(words, class, PARENT) as usize;
    let busy = get(words, parent, ACTIVE) - 1;
    put(words, parent, ACTIVE, busy);
    if busy == 0 {
        turn_passive(words, parent);
    }
}
