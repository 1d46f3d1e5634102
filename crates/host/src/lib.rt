// The scheduler for hosts in C: numbers and lent arrays. `include/hfsc.h` declares these functions. Every
// name starts with `hfsc_`, since a linked program has one space of names.
// Stays: a state's two arrays are two parameters of each call, since the C interface has them so.

#![tactic(auto)]

ghost use Rattle.std.specs.Prelude.{◌≡◌, length};
ghost use Rattle.rules.specs.Clock.{clock};
ghost use Rattle.rules.specs.Queues.{queue};
ghost use Rattle.rules.specs.Fair.{virtual_time_of};
ghost use Rattle.state.specs.State.{Reached};
ghost use Rattle.state.specs.Heads.{EveryHistory};
ghost use Rattle.judgefile.specs.Promises.{JudgeTold};
ghost use Rattle.host.specs.Words.{tree_said};
ghost use Rattle.host.specs.Promises.{StartTold, StartFileTold, WriteTold, ArriveTold, DepartTold, HeadTold};

use crate::numbers::{departure_numbers, refusal_number, tell, times_numbers};
use crate::words::tree_of;
use state::table::{Lengths, Words};

pub mod coming;
mod numbers;
mod words;

// A state started from a tree of words, at time 0 with this stamp. The answer is 0, or the number of
// the refusal, with the class at fault in `fault`.
pub fn hfsc_start_words(
    words: &mut Words,
    lengths: &mut Lengths,
    tree: &[u32],
    stamp: u32,
    fault: &mut u32,
) -> u32
    ensures right { StartTold (tree_said tree.now) stamp result fault.new words.new lengths.new }
    ensures reached { Reached words.new lengths.new }
{
    tell(sched::start(tree_of(tree), stamp, words, lengths), fault)
}

// Stays: two lines are those of `hfsc_start_bursts` too: the arguments of both are the C interface, and one function of the two lines would take five.
// A state started from a tree file. A refused file gives the state of no classes, as a refused tree does.
pub fn hfsc_start_file(
    words: &mut Words,
    lengths: &mut Lengths,
    file: &[u8],
    stamp: u32,
    fault: &mut u32,
) -> u32
    ensures right { StartFileTold file.now stamp result fault.new words.new lengths.new }
    ensures reached { Reached words.new lengths.new }
{
    let reading = file::reader::read(file);
    let _ = sched::start(reading.unwrap_or(tree::empty()), stamp, words, lengths);
    tell(reading, fault)
}

// The file of a tree of words, written to the start of `out`: 0, with its bytes counted in `total`; or the number of the refusal, with
// the class at fault in `fault`.
pub fn hfsc_write(tree: &[u32], out: &mut [u8], total: &mut u32, fault: &mut u32) -> u32
    ensures { WriteTold (tree_said tree.now) out.old result total.new fault.new out.new }
{
    let answer = file::writer::write(tree_of(tree), out);
    *total = answer.unwrap_or(0);
    tell(answer, fault)
}

// Judges the log of a box over a tree file, from a first stamp. The answer is the number of the judgement, and `out` says more of it.
pub fn hfsc_judge(file: &[u8], first: u32, log: &[u32], out: &mut [u64; 4]) -> u32
    ensures { JudgeTold file.now first log.now result out.new }
{
    judgefile::judge_file(file, first, log, out)
}

// A packet of this length arrives for this class. The answer is 0, with the packet's number in `number`,
// or the number of the refusal.
pub fn hfsc_arrive(
    words: &mut Words,
    lengths: &mut Lengths,
    stamp: u32,
    class: u32,
    length: u32,
    number: &mut u64,
) -> u32
    requires { Reached words.old lengths.old }
    ensures right { ArriveTold words.old lengths.old stamp class «length» result number.new words.new lengths.new }
    ensures reached { Reached words.new lengths.new }
{
    let answer = sched::arrive(words, lengths, stamp, class, length);
    *number = answer.unwrap_or(0);
    refusal_number(answer)
}

// The link asks for a packet. The answer is 0, with what leaves in `out`, or the number of the refusal.
pub fn hfsc_depart(words: &mut Words, lengths: &mut Lengths, stamp: u32, out: &mut [u64; 8]) -> u32
    requires { Reached words.old lengths.old }
    ensures right { DepartTold words.old lengths.old stamp result out.new words.new lengths.new }
    ensures reached { Reached words.new lengths.new }
{
    let answer = sched::depart(words, lengths, stamp);
    *out = departure_numbers(answer);
    refusal_number(answer)
}

// The clock.
pub fn hfsc_clock(words: &Words, lengths: &Lengths) -> u64
    requires { Reached words.now lengths.now }
    ensures { EveryHistory words.now lengths.now (λ h. result ≡ clock h.calls) }
{
    sched::readers::clock(words, lengths)
}

// How many packets wait in a class.
pub fn hfsc_waiting(words: &Words, lengths: &Lengths, class: u32) -> u64
    requires { Reached words.now lengths.now }
    ensures { EveryHistory words.now lengths.now (λ h. result ≡ length (queue h.calls class)) }
{
    sched::readers::waiting(words, lengths, class)
}

// The virtual time of a class.
pub fn hfsc_virtual_time(words: &Words, lengths: &Lengths, class: u32) -> u64
    requires { Reached words.now lengths.now }
    ensures { EveryHistory words.now lengths.now (λ h. result ≡ virtual_time_of h.tree h.calls class) }
{
    sched::readers::virtual_time(words, lengths, class)
}

// Whether a leaf's head has an eligible time and a deadline, and both, in `out`.
pub fn hfsc_head_times(words: &Words, lengths: &Lengths, class: u32, out: &mut [u64; 3])
    requires { Reached words.now lengths.now }
    ensures { HeadTold words.now lengths.now class out.new }
{
    *out = times_numbers(sched::readers::head_times(words, lengths, class));
}
