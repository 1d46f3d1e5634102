// Reads class-tree files. A file of any length is read, in turns.
ghost use Rattle.console.specs.Trees.{ToldOfSome};

use crate::{ARGUMENT, Stop, TURN};
use bursts::{KEPT, MOST_SEEN, Seen, Taken};
use print::Answer;
use std::io;
use std::io::Read;
use std::rt::{Env, Files};
use tree::Tree;

// The tree of the class-tree file that the argument at that place names. Where there is none, since the file can't be read or is
// refused, that is said.
pub fn tree_argument(rt: &(impl Env + Files + Print + Eprint), at: usize) -> Result<Tree, Stop> {
    let mut name = [0u8; ARGUMENT];
    let n = crate::name(rt, at, b"TREE", &mut name)?;
    match read_tree(rt, &name[..n]).answer {
        Some(Ok(tree)) => Ok(tree),
        Some(Err(fault)) => Err(crate::refuse(rt, Answer::from(fault))),
        None => Err(Stop::Failed),
    }
}

// What the class-tree file of that name reads as. Where it can't be read, that is said, and the answer is nothing yet, with no
// tree.
pub fn read_tree(rt: &(impl Files + Eprint), name: &[u8]) -> Taken
    ensures { ToldOfSome result }
{
    match crate::open(rt, name) {
        Ok(mut file) => turns(rt, &mut file, name),
        Err(error) => unread(rt, name, error),
    }
}

// Offers what each read gives, until one gives nothing. From 2^32 bytes on, nothing that follows can change the answer: so
// the reading stops there too, and a file without an end gets its refusal.
fn turns(rt: &impl Eprint, file: &mut impl Read, name: &[u8]) -> Taken
    ensures { ToldOfSome result }
{
    let mut kept = [0u8; KEPT];
    let mut bytes = [0u8; TURN];
    let mut seen = bursts::begin(&mut kept);
    while seen.count < MOST_SEEN {
        let n = match file.read(&mut bytes) {
            Ok(n) => n,
            Err(error) => return unread(rt, name, error),
        };
        if n == 0 {
            break;
        }
        seen = bursts::offer(&mut kept, seen, &bytes[..n]).seen;
    }
    bursts::end(&kept, seen)
}

// A file that can't be read: its end was not told.
fn unread(rt: &impl Eprint, name: &[u8], error: io::Error) -> Taken
    ensures { ToldOfSome result }
{
    crate::fail(rt, name, error);
    Taken {
        seen: Seen {
            count: 0,
            ended: false,
        },
        answer: None,
    }
}
