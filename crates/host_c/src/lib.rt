// The functions of `host` under their names in C: each export calls the function of its name, and promises what that promises.
// `../host/include/hfsc.h` declares them.

#![tactic(auto)]

ghost use Rattle.std.specs.Prelude.{◌≡◌, length};
ghost use Rattle.rules.specs.Clock.{clock};
ghost use Rattle.rules.specs.Queues.{queue};
ghost use Rattle.rules.specs.Fair.{virtual_time_of};
ghost use Rattle.state.specs.State.{Reached};
ghost use Rattle.state.specs.Heads.{EveryHistory};
ghost use Rattle.judgefile.specs.Promises.{JudgeTold};
ghost use Rattle.host.specs.Words.{tree_said};
ghost use Rattle.host.specs.Promises.{StartTold, StartFileTold, WriteTold, ArriveTold, DepartTold, HeadTold};

use state::table::{Lengths, Words};

pub mod coming;

// A state started from a tree of words, at time 0 with this stamp. The answer is 0, or the number of
// the refusal, with the class at fault in `fault`.
#[unsafe(no_mangle)]
pub extern "C" fn hfsc_start_words(
    words: &mut Words,
    lengths: &mut Lengths,
    tree: &[u32],
    stamp: u32,
    fault: &mut u32,
) -> u32
    ensures right { StartTold (tree_said tree.now) stamp result fault.new words.new lengths.new }
    ensures reached { Reached words.new lengths.new }
{
    host::hfsc_start_words(words, lengths, tree, stamp, fault)
}

// A state started from a tree file. A refused file gives the state of no classes, as a refused tree does.
#[unsafe(no_mangle)]
pub extern "C" fn hfsc_start_file(
    words: &mut Words,
    lengths: &mut Lengths,
    file: &[u8],
    stamp: u32,
    fault: &mut u32,
) -> u32
    ensures right { StartFileTold file.now stamp result fault.new words.new lengths.new }
    ensures reached { Reached words.new lengths.new }
{
    host::hfsc_start_file(words, lengths, file, stamp, fault)
}

// The file of a tree of words, written to the start of `out`: 0, with its bytes counted in `total`; or the number of the refusal, with
// the class at fault in `fault`.
#[unsafe(no_mangle)]
pub extern "C" fn hfsc_write(tree: &[u32], out: &mut [u8], total: &mut u32, fault: &mut u32) -> u32
    ensures { WriteTold (tree_said tree.now) out.old result total.new fault.new out.new }
{
    host::hfsc_write(tree, out, total, fault)
}

// Judges the log of a box over a tree file, from a first stamp. The answer is the number of the judgement, and `out` says more of it.
#[unsafe(no_mangle)]
pub extern "C" fn hfsc_judge(file: &[u8], first: u32, log: &[u32], out: &mut [u64; 4]) -> u32
    ensures { JudgeTold file.now first log.now result out.new }
{
    host::hfsc_judge(file, first, log, out)
}

// A packet of this length arrives for this class. The answer is 0, with the packet's number in `number`,
// or the number of the refusal.
#[unsafe(no_mangle)]
pub extern "C" fn hfsc_arrive(
    words: &mut Words,
    lengths: &mut Lengths,
    stamp: u32,
    class: u32,
    length: u32,
    number: &mut u64,
) -> u32
    requires { Reached words.old lengths.old }
    ensures right { ArriveTold words.old lengths.old stamp class «length» result number.new words.new lengths.new }
    ensures reached { Reached words.new lengths.new }
{
    host::hfsc_arrive(words, lengths, stamp, class, length, number)
}

// The link asks for a packet. The answer is 0, with what leaves in `out`, or the number of the refusal.
#[unsafe(no_mangle)]
pub extern "C" fn hfsc_depart(
    words: &mut Words,
    lengths: &mut Lengths,
    stamp: u32,
    out: &mut [u64; 8],
) -> u32
    requires { Reached words.old lengths.old }
    ensures right { DepartTold words.old lengths.old stamp result out.new words.new lengths.new }
    ensures reached { Reached words.new lengths.new }
{
    host::hfsc_depart(words, lengths, stamp, out)
}

// The clock.
#[unsafe(no_mangle)]
pub extern "C" fn hfsc_clock(words: &Words, lengths: &Lengths) -> u64
    requires { Reached words.now lengths.now }
    ensures { EveryHistory words.now lengths.now (λ h. result ≡ clock h.calls) }
{
    host::hfsc_clock(words, lengths)
}

// How many packets wait in a class.
#[unsafe(no_mangle)]
pub extern "C" fn hfsc_waiting(words: &Words, lengths: &Lengths, class: u32) -> u64
    requires { Reached words.now lengths.now }
    ensures { EveryHistory words.now lengths.now (λ h. result ≡ length (queue h.calls class)) }
{
    host::hfsc_waiting(words, lengths, class)
}

// The virtual time of a class.
#[unsafe(no_mangle)]
pub extern "C" fn hfsc_virtual_time(words: &Words, lengths: &Lengths, class: u32) -> u64
    requires { Reached words.now lengths.now }
    ensures { EveryHistory words.now lengths.now (λ h. result ≡ virtual_time_of h.tree h.calls class) }
{
    host::hfsc_virtual_time(words, lengths, class)
}

// Whether a leaf's head has an eligible time and a deadline, and both, in `out`.
#[unsafe(no_mangle)]
pub extern "C" fn hfsc_head_times(words: &Words, lengths: &Lengths, class: u32, out: &mut [u64; 3])
    requires { Reached words.now lengths.now }
    ensures { HeadTold words.now lengths.now class out.new }
{
    host::hfsc_head_times(words, lengths, class, out);
}
