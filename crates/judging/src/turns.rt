// Reads a log in turns, and judges what each of them brings: a log of any length needs the memory of one turn.
ghost use Rattle.state.specs.State.{Reached};

use console::{Stop, TURN};
use judgetext::Progress;
use print::Answer;
use state::table::{CELLS, Lengths, PLACES, Words};
use std::io::Read;
use tree::Tree;

// Judges the log of the open file, replayed from the tree with that first stamp: how far it was judged. That the tree is refused, or
// the log can't be read, is said.
pub fn judge(
    rt: &(impl Print + Eprint),
    tree: Tree,
    first: u32,
    file: &mut impl Read,
    name: &[u8],
) -> Result<Progress, Stop> {
    let mut words = [0u64; CELLS];
    let mut lengths = [0u16; PLACES];
    if let Err(fault) = sched::start(tree, first, &mut words, &mut lengths) {
        return Err(console::refuse(rt, Answer::from(fault)));
    }
    turns(rt, file, name, &mut words, &mut lengths)
}

// Each turn judges what a read gives, until one gives nothing or something is wrong. The text's end is the end of its last line.
// A proved loop has to end, and nothing says that a file does: so the turns are counted, up to a number that no run reaches.
fn turns(
    rt: &impl Eprint,
    file: &mut impl Read,
    name: &[u8],
    words: &mut Words,
    lengths: &mut Lengths,
) -> Result<Progress, Stop>
    requires { Reached words.old lengths.old }
{
    let mut text = [0u8; TURN];
    let mut at = judgetext::before();
    'turns: for _ in 0..u64::MAX {
        if !judgetext::is_right(at) {
            break;
        }
        let n = match file.read(&mut text) {
            Ok(0) => break,
            Ok(n) => n,
            Err(error) => return Err(console::fail(rt, name, error)),
        };
        at = judgetext::judge_text(words, lengths, at, &text[..n]);
    }
    Ok(judgetext::judge_text(words, lengths, at, b"\n"))
}
