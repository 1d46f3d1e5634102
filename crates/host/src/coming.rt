// A tree file that comes in bursts. The host lends the bytes that are kept and two numbers for what was seen: how many bytes, and whether the end was told.
ghost use Rattle.std.specs.Prelude.{◌≡◌};
ghost use Rattle.state.specs.State.{Reached};
ghost use Rattle.host.specs.Bursts.{seen_said, seen_numbers, answer_verdict, BeginTold, OfferTold, EndNoted, EndTold, StartBurstsTold};

use crate::numbers::tell;
use bursts::{Kept, Seen, Taken};
use state::table::{Lengths, Words};

// What the two numbers say was seen.
// Stays: the numbers are the C interface; `Seen` is of `bursts`, which knows no numbers of C, so that no `From` stands here or there.
fn seen_said(numbers: &[u64; 2]) -> Seen
    ensures { result ≡ seen_said numbers.now }
{
    Seen {
        count: numbers[0] as usize,
        ended: numbers[1] != 0,
    }
}

// Writes the two numbers of what was seen.
fn note(numbers: &mut [u64; 2], seen: Seen)
    ensures { numbers.new ≡ seen_numbers seen }
{
    *numbers = [seen.count as u64, seen.ended as u64];
}

// Tells the end, and notes that it was told.
fn end(kept: &Kept, numbers: &mut [u64; 2]) -> Taken
    ensures { EndNoted kept.now numbers.old result numbers.new }
{
    let told = bursts::end(kept, seen_said(numbers));
    note(numbers, told.seen);
    told
}

// Before the first byte of a file.
pub fn hfsc_bursts_begin(kept: &mut Kept, seen: &mut [u64; 2])
    ensures { BeginTold kept.new seen.new }
{
    note(seen, bursts::begin(kept));
}

// The next burst of the file. Before the end was told the answer is 0; after it the burst changes nothing, and the answer is the number of the file's refusal.
pub fn hfsc_bursts_offer(kept: &mut Kept, seen: &mut [u64; 2], burst: &[u8]) -> u32
    ensures { OfferTold kept.old seen.old burst.now result kept.new seen.new }
{
    let told = bursts::offer(kept, seen_said(seen), burst);
    note(seen, told.seen);
    // Nothing yet is told as nothing refused.
    tell(told.answer.transpose(), &mut 0)
}

// The file has ended. The answer is 0, or the number of its refusal, with the class at fault in `fault`.
pub fn hfsc_bursts_end(kept: &Kept, seen: &mut [u64; 2], fault: &mut u32) -> u32
    ensures { EndTold kept.now seen.old result fault.new seen.new }
{
    tell(end(kept, seen).answer.transpose(), fault)
}

// The file has ended, and a state is started from it. A refused file gives the state of no classes, as a refused tree does.
pub fn hfsc_start_bursts(
    words: &mut Words,
    lengths: &mut Lengths,
    kept: &Kept,
    seen: &mut [u64; 2],
    stamp: u32,
    fault: &mut u32,
) -> u32
    ensures right { StartBurstsTold kept.now seen.old stamp result fault.new seen.new words.new lengths.new }
    ensures reached { Reached words.new lengths.new }
{
    let reading = end(kept, seen).answer.unwrap();
    let _ = sched::start(reading.unwrap_or(tree::empty()), stamp, words, lengths);
    tell(reading, fault)
}
