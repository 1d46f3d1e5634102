// The header and its checks.
ghost use Rattle.std.specs.Prelude.{◌≡◌};
ghost use Rattle.tree.specs.Verdicts.{refused};
ghost use Rattle.file.specs.Fronts.{AtHand};
ghost use Rattle.file.specs.Steps.{HeaderCounted};

use super::entries::Reader;
use crate::format::{HEADER, MARK, VERSION, entry_at};
use tree::{Fault, Refusal};

// Checks 1 to 5, with the number of bytes given.
pub(crate) fn header(front: &[u8], given: usize) -> Result<(), Fault>
    requires { AtHand front.now given }
    ensures { HeaderCounted front.now given result }
{
    if given < HEADER {
        return whole(Refusal::ShortFile);
    }
    let reader = Reader::new(front);
    if reader.word(0) != MARK {
        return whole(Refusal::NoMark);
    }
    if reader.word(4) != VERSION {
        return whole(Refusal::OtherVersion);
    }
    let count = reader.word(8);
    if count < 2 || tree::MOST_CLASSES < count {
        return whole(Refusal::WrongCount);
    }
    if reader.word(12) as usize != given || given < entry_at(count) {
        return whole(Refusal::WrongTotal);
    }
    Ok(())
}

// A refusal of the file as a whole names class 0.
fn whole(why: Refusal) -> Result<(), Fault>
    ensures { result ≡ refused why 0 }
{
    Err(Fault { why, class: 0 })
}
