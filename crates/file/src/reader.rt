// Reading a class-tree file: checks 1 to 10 in that order, each over all classes before the next.
mod bodies;
mod contents;
mod entries;
mod header;
mod words;

ghost use Rattle.file.specs.Format.{ReadsAs, verdict_in, tree_in};
ghost use Rattle.file.specs.Fronts.{AtHand, EveryFile};

use entries::Reader;
use tree::{Fault, Refusal, Tree};

// What a file reads as: its tree, or the first refusal with the lowest class at fault.
pub fn read(file: &[u8]) -> Result<Tree, Fault>
    ensures { ReadsAs file.now (verdict_in result) (tree_in result) }
{
    read_front(file, file.len())
}

// What a file reads as, by the bytes at hand and the number of bytes given. Where the file goes on past the bytes at hand, and its bodies
// lie in their places, the root's body is longer than a root's can be: else the file would be no longer than the longest right one.
pub fn read_front(front: &[u8], given: usize) -> Result<Tree, Fault>
    requires { AtHand front.now given }
    ensures { EveryFile front.now given (λ file. ReadsAs file (verdict_in result) (tree_in result)) }
{
    header::header(front, given)?;
    let reader = Reader::new(front);
    let count = reader.word(8);
    contents::places(reader, count, given)?;
    if front.len() < given {
        return Err(Fault {
            why: Refusal::WrongBody,
            class: 0,
        });
    }
    let tree = bodies::tree_of(reader, count);
    tree::check(tree)?;
    Ok(tree)
}
