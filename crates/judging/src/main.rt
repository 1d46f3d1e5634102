// Judges the log of a box over a class-tree file, from a first stamp, and prints what it is judged as, as docs/FORMS.md sets it
// down.

#![tactic(auto)]

mod turns;

use console::{ARGUMENT, Stop};
use judge::Rejection;
use judgetext::{Progress, Standing};
use print::{Answer, Wrong};
use printlog::LogLine;
use std::io;
use std::rt::{Env, Files};
use tree::Tree;

fn main(rt: HostRuntime) {
    console::end(&rt, run(&rt));
}

fn run(rt: &(impl Env + Files + Print + Eprint)) -> Result<(), Stop> {
    if console::arguments(rt) != 4 {
        return Err(console::usage(rt, b"usage: judge TREE FIRST LOG\n"));
    }
    let mut word = [0u8; ARGUMENT];
    let n = console::word(rt, 2, &mut word);
    let Ok(first) = wording::number(&word[..n]) else {
        return Err(console::usage(rt, b"judge: FIRST is not a number of 32 bits\n"));
    };
    judge_from(rt, first)
}

fn judge_from(rt: &(impl Env + Files + Print + Eprint), first: u32) -> Result<(), Stop> {
    let tree = console::tree_argument(rt, 1)?;
    let mut name = [0u8; ARGUMENT];
    let n = console::name(rt, 3, b"LOG", &mut name)?;
    log_file(rt, tree, first, &name[..n])
}

fn log_file(
    rt: &(impl Files + Print + Eprint),
    tree: Tree,
    first: u32,
    name: &[u8],
) -> Result<(), Stop> {
    let mut file = console::open(rt, name).map_err(|error| console::fail(rt, name, error))?;
    let at = turns::judge(rt, tree, first, &mut file, name)?;
    tell(rt, at)
}

// Prints what a text is judged as that was read to its end, or up to what is wrong in it.
fn tell(rt: &(impl Print + Eprint), at: Progress) -> Result<(), Stop> {
    if let Standing::NotANumber { line } = at.standing {
        return Err(console::refuse(
            rt,
            Answer::Faulty {
                number: line,
                wrong: Wrong::NotANumber,
            },
        ));
    }
    match judgetext::judgement(at) {
        Ok(()) => {
            let records = at.records;
            say(rt, LogLine::Accepted { records }).or(Err(Stop::Failed))
        }
        Err(Rejection::TreeRefused { why, class }) => {
            Err(console::refuse(rt, Answer::TreeRefused { why, class }))
        }
        Err(Rejection::Malformed { record }) => Err(refuse(rt, LogLine::Malformed { record })),
        Err(Rejection::Refused { record, why }) => Err(refuse(
            rt,
            LogLine::Refused { record, why },
        )),
        Err(Rejection::AnotherChoice { record, ours }) => {
            let _ = say(rt, LogLine::AnotherChoice { record });
            let answer = print::departure(ours);
            Err(refuse(rt, LogLine::Ours { answer }))
        }
    }
}

// A line.
fn say(rt: &(impl Print + Eprint), line: LogLine) -> io::Result<()> {
    let mut out = [0u8; printlog::LINE];
    let end = printlog::line(line, &mut out);
    console::text(rt, &out[..end])
}

// The line of what is not accepted, whether it could be written or not.
fn refuse(rt: &(impl Print + Eprint), line: LogLine) -> Stop {
    let _ = say(rt, line);
    Stop::Failed
}
