// The contents: where each body lies, and the check of it, 6.
ghost use Rattle.std.specs.Prelude.{◌≡◌, ◌+◌};
ghost use Rattle.curve.specs.Answers.{Exactly};
ghost use Rattle.file.specs.Format.{RightLength, header_bytes};
ghost use Rattle.file.specs.Fronts.{AtHand};
ghost use Rattle.file.specs.Steps.{Opened, Fitting, PlacesJudged};

use super::entries::{Entry, Reader};
use crate::format::{body_bytes, entry_at};
use curve::codec::KINDS;
use tree::{Fault, Refusal};

// Whether a body of some kind has this length.
fn right_length(bytes: u32) -> bool
    ensures { Exactly result (RightLength bytes) }
{
    (0..KINDS).any(|kind| bytes == body_bytes(kind))
}

// Whether a body starts where the one before ended, is as long as a body can be, and ends within the total.
fn fitting(entry: Entry, start: usize, total: usize) -> bool
    ensures { Exactly result (Fitting entry.offset entry.bytes start total) }
{
    entry.offset as usize == start && right_length(entry.bytes) && entry.end() <= total
}

// Check 6: the entries are walked one after another, and the last body has to end at the total, which is the number of
// bytes given.
pub(crate) fn places(mut reader: Reader<'_>, count: u32, total: usize) -> Result<(), Fault>
    requires first { reader.place ≡ header_bytes }
    requires opened { AtHand reader.file.now total × Opened reader.file.now total reader.order count }
    ensures { PlacesJudged reader.entry.file.now result }
{
    let mut start = entry_at(count);
    for class in 0..count {
        let entry = reader.next_entry();
        if !fitting(entry, start, total) {
            return Err(Fault {
                why: Refusal::WrongPlace,
                class,
            });
        }
        start = entry.end();
    }
    if start != total {
        return Err(Fault {
            why: Refusal::WrongPlace,
            class: count - 1,
        });
    }
    Ok(())
}
