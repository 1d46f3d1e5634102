// The scheduler. Its state is two arrays that the host lends and keeps: a table of words by columns, and
// the lengths of the packets that wait. Every call changes them in place, and leaves them as they were
// where it refuses.

#![tactic(auto)]

ghost use Rattle.std.specs.Prelude.{◌≡◌, List, ℕ};
ghost use Rattle.tree.specs.declared.Tree.{Tree};
ghost use Rattle.rules.specs.Calls.{Call, came, left};
ghost use Rattle.rules.specs.Lawful.{Allowed};
ghost use Rattle.state.specs.State.{Reached};
ghost use Rattle.state.specs.Heads.{Some, SomeCalls, SomeHistory, EveryCalls, EveryHistory};
ghost use Rattle.sched.specs.Promises.{StartRight, ArriveRight, DepartRight};
ghost use Rattle.sched.specs.StepsArriving.{AdmissionRight, BeforeBegin, AfterBegin, AcceptRight, Receivable, ReceiveRight};
ghost use Rattle.sched.specs.StepsDeparting.{BeforeSettle, AfterSettle, TakeRight};

use fair::{raise, rest, wake};
use rules::{Packet, Rule};
use state::choice::choose;
use state::leaf::{count_bytes, put_times, time_first, time_next, times_of};
use state::planting::{clear_lengths, clear_words, link, plant};
use state::table::{
    ACCEPTED, CHILD, COUNT, HEAD_NUMBER, Lengths, NEVER, NEXT_NUMBER, STAMP, Words, get, header,
    length_of, put, put_header, put_length,
};
use state::ticks::{move_clock, tick};
use tree::{Fault, Refusal, Tree};

pub mod readers;
// Stays: the two arrays are lent apart by hosts in C, and each public function here takes them so (docs/PROMISES.md); a type over both that knew `Reached` would ask it of callers in place of the clause.
// A state started from the tree, at time 0 with this stamp; a state of no classes where the tree is
// refused.
pub fn start(tree: Tree, stamp: u32, words: &mut Words, lengths: &mut Lengths) -> Result<(), Fault>
    ensures right { StartRight tree stamp result words.new lengths.new }
    ensures reached { Reached words.new lengths.new }
{
    clear_words(words);
    clear_lengths(lengths);
    put_header(words, STAMP, stamp as u64);
    tree::check(tree)?;
    put_header(words, COUNT, tree.count as u64);
    plant(words, tree);
    link(words, tree);
    Ok(())
}

// The refusals 11, 12, 13 and 16 of an arrival.
fn admit(words: &Words, class: u32, length: u32) -> Result<(), Refusal>
    requires { Some (λ l. Reached words.now l) }
    ensures { (l : List ℕ) → EveryHistory words.now l (λ h. AdmissionRight h class length result) }
{
    let leaf = class as usize;
    if header(words, COUNT) <= class as u64 || get(words, leaf, CHILD) != 0 {
        return Err(Refusal::NoSuchLeaf);
    }
    if length < 1 || rules::LONGEST < length {
        return Err(Refusal::WrongLength);
    }
    if rules::ROOM <= get(words, leaf, NEXT_NUMBER) - get(words, leaf, HEAD_NUMBER) {
        return Err(Refusal::LeafFull);
    }
    let bytes = rules::weigh(length);
    if rules::MOST_BYTES < header(words, ACCEPTED) + bytes {
        return Err(Refusal::BytesFull);
    }
    Ok(())
}

// A backlog instant: a piece, the times of the head, and the leaf turns active.
fn begin(words: &mut Words, class: usize, tick: u64, length: u32)
    requires { SomeCalls (λ tree cs. BeforeBegin words.old tree cs class tick length) }
    ensures { EveryCalls (λ tree cs. BeforeBegin words.old tree cs class tick length) (λ tree cs. AfterBegin words.old words.new tree cs class tick length) }
{
    time_first(words, class, tick, length);
    wake(words, class);
}

// The packet is put at the end of the leaf's queue.
fn accept(words: &mut Words, lengths: &mut Lengths, tick: u64, class: usize, length: u32) -> u64
    requires { SomeHistory words.old lengths.old (λ h. Allowed h.tree h.calls (came tick class length)) }
    ensures { EveryHistory words.old lengths.old (λ h. Allowed h.tree h.calls (came tick class length) → AcceptRight h tick class length result words.new lengths.new) }
{
    let number = get(words, class, NEXT_NUMBER);
    let waiting = number - get(words, class, HEAD_NUMBER);
    let bytes = header(words, ACCEPTED) + rules::weigh(length);
    put_header(words, ACCEPTED, bytes);
    put(words, class, NEXT_NUMBER, number + 1);
    put_length(lengths, class, number, length as u16);
    if waiting == 0 {
        begin(words, class, tick, length);
    }
    number
}

// An arrival at a tick that the clock may have: refused, with every cell as it was, or accepted.
fn receive(
    words: &mut Words,
    lengths: &mut Lengths,
    tick: u64,
    class: u32,
    length: u32,
) -> Result<u64, Refusal>
    requires { Receivable words.old lengths.old tick }
    ensures { EveryHistory words.old lengths.old (λ h. ReceiveRight h tick class length result words.new lengths.new) }
{
    admit(words, class, length)?;
    Ok(accept(words, lengths, tick, class as usize, length))
}

// A packet of this length arrives for this class.
pub fn arrive(
    words: &mut Words,
    lengths: &mut Lengths,
    stamp: u32,
    class: u32,
    length: u32,
) -> Result<u64, Refusal>
    requires { Reached words.old lengths.old }
    ensures right { EveryHistory words.old lengths.old (λ h. ArriveRight h stamp class length result words.new lengths.new) }
    ensures reached { Reached words.new lengths.new }
{
    let now = tick(words, stamp)?;
    let number = receive(words, lengths, now, class, length)?;
    move_clock(words, now, stamp);
    Ok(number)
}

// The leaf after its head left: the next head's times, or the leaf turns passive.
fn settle(words: &mut Words, lengths: &Lengths, class: usize, rule: Rule)
    requires { SomeCalls (λ tree cs. Some (λ t. BeforeSettle words.old lengths.now tree cs class t rule)) }
    ensures { (tree : Tree) (cs : List Call) (t : ℕ) → BeforeSettle words.old lengths.now tree cs class t rule → AfterSettle words.old words.new tree cs class t rule }
{
    let number = get(words, class, HEAD_NUMBER);
    if number < get(words, class, NEXT_NUMBER) {
        let length = length_of(lengths, class, number) as u32;
        time_next(words, class, rule, length);
    } else {
        put_times(words, class, NEVER, 0);
        rest(words, class);
    }
}

// The head of the leaf leaves by that rule.
fn take(words: &mut Words, lengths: &mut Lengths, class: usize, rule: Rule) -> Packet
    requires { SomeHistory words.old lengths.old (λ h. Some (λ t. Allowed h.tree h.calls (left t class rule))) }
    ensures { EveryHistory words.old lengths.old (λ h. (t : ℕ) → Allowed h.tree h.calls (left t class rule) → TakeRight h t class rule result words.new lengths.new) }
{
    let number = get(words, class, HEAD_NUMBER);
    let length = length_of(lengths, class, number) as u32;
    let times = times_of(words, class);
    put_length(lengths, class, number, 0);
    put(words, class, HEAD_NUMBER, number + 1);
    let bytes = rules::weigh(length);
    count_bytes(words, class, rule, bytes);
    raise(words, class, bytes);
    settle(words, lengths, class, rule);
    Packet {
        class: class as u32,
        number,
        length,
        rule,
        times,
    }
}

// The link asks for a packet.
pub fn depart(
    words: &mut Words,
    lengths: &mut Lengths,
    stamp: u32,
) -> Result<Option<Packet>, Refusal>
    requires { Reached words.old lengths.old }
    ensures right { EveryHistory words.old lengths.old (λ h. DepartRight h stamp result words.new lengths.new) }
    ensures reached { Reached words.new lengths.new }
{
    let now = tick(words, stamp)?;
    let Some(sender) = choose(words, now) else {
        move_clock(words, now, stamp);
        return Ok(None);
    };
    let packet = take(words, lengths, sender.class, sender.rule);
    move_clock(words, now, stamp);
    Ok(Some(packet))
}
