// A reader that takes a class-tree file in bursts, as it comes, and is told when the file ends.

#![tactic(auto)]

ghost use Rattle.bursts.specs.Bursts.{Begun, Offered, Ended};

use tree::{Fault, Tree};

mod keeping;

// The bytes that the longest right file has, and the most that are counted: one more than any total that a file can state.
pub const KEPT: usize = 2052;

pub const MOST_SEEN: usize = 4294967296;

// What is kept of a file: its first bytes.
// Stays: docs/PROMISES.md names the functions with both, and hosts in C lend the kept bytes and what was seen apart.
pub type Kept = [u8; KEPT];

// What was seen of it: how many bytes, a count that stops at 2^32, and whether its end was told.
#[derive(Clone, Copy, PartialEq, Eq)]
pub struct Seen {
    pub count: usize,
    pub ended: bool,
}

// What is said of a burst or of the end: what was seen with it, and what the whole file reads as, which is not known before its end was told.
#[derive(Clone, Copy)]
pub struct Taken {
    pub seen: Seen,
    pub answer: Option<Result<Tree, Fault>>,
}

// Before the first byte.
pub fn begin(kept: &mut Kept) -> Seen
    ensures { Begun result kept.new }
{
    *kept = [0; KEPT];
    Seen {
        count: 0,
        ended: false,
    }
}

// The next burst of the file. After the end was told it is not looked at.
pub fn offer(kept: &mut Kept, seen: Seen, burst: &[u8]) -> Taken
    ensures { Offered kept.old seen burst.now result kept.new }
{
    if seen.ended {
        return end(kept, seen);
    }
    keeping::keep(kept, seen.count, burst);
    Taken {
        seen: Seen {
            count: keeping::counted(seen.count, burst.len()),
            ended: false,
        },
        answer: None,
    }
}

// The file has ended. Told again, it changes nothing and has the same answer.
// As a call it would have each offer clear the room for an answer, which has a tree's size.
#[inline(always)]
pub fn end(kept: &Kept, seen: Seen) -> Taken
    ensures { Ended kept.now seen result }
{
    Taken {
        seen: Seen {
            count: seen.count,
            ended: true,
        },
        answer: Some(keeping::reading(kept, seen.count)),
    }
}
