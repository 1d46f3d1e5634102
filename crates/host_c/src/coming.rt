// The functions of `host` for a tree file that comes in bursts.
ghost use Rattle.state.specs.State.{Reached};
ghost use Rattle.host.specs.Bursts.{BeginTold, OfferTold, EndTold, StartBurstsTold};

use bursts::Kept;
use state::table::{Lengths, Words};

// Before the first byte of a file.
#[unsafe(no_mangle)]
pub extern "C" fn hfsc_bursts_begin(kept: &mut Kept, seen: &mut [u64; 2])
    ensures { BeginTold kept.new seen.new }
{
    host::coming::hfsc_bursts_begin(kept, seen);
}

// The next burst of the file. Before the end was told the answer is 0; after it the burst changes nothing, and the answer is the number of the file's refusal.
#[unsafe(no_mangle)]
pub extern "C" fn hfsc_bursts_offer(kept: &mut Kept, seen: &mut [u64; 2], burst: &[u8]) -> u32
    ensures { OfferTold kept.old seen.old burst.now result kept.new seen.new }
{
    host::coming::hfsc_bursts_offer(kept, seen, burst)
}

// The file has ended. The answer is 0, or the number of its refusal, with the class at fault in `fault`.
#[unsafe(no_mangle)]
pub extern "C" fn hfsc_bursts_end(kept: &Kept, seen: &mut [u64; 2], fault: &mut u32) -> u32
    ensures { EndTold kept.now seen.old result fault.new seen.new }
{
    host::coming::hfsc_bursts_end(kept, seen, fault)
}

// The file has ended, and a state is started from it. A refused file gives the state of no classes, as a refused tree does.
#[unsafe(no_mangle)]
pub extern "C" fn hfsc_start_bursts(
    words: &mut Words,
    lengths: &mut Lengths,
    kept: &Kept,
    seen: &mut [u64; 2],
    stamp: u32,
    fault: &mut u32,
) -> u32
    ensures right { StartBurstsTold kept.now seen.old stamp result fault.new seen.new words.new lengths.new }
    ensures reached { Reached words.new lengths.new }
{
    host::coming::hfsc_start_bursts(words, lengths, kept, seen, stamp, fault)
}
