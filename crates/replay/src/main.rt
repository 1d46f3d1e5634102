// Replays a file of calls over a class-tree file, and prints the answers or the log, as docs/FORMS.md sets them down.

#![tactic(auto)]

mod lines;
mod output;
mod turns;

use console::{ARGUMENT, Stop};
use lines::Form;
use std::rt::{Env, Files};

fn main(rt: HostRuntime) {
    console::end(&rt, run(&rt));
}

fn run(rt: &(impl Env + Files + Print + Eprint)) -> Result<(), Stop> {
    match console::arguments(rt) {
        2 => show(rt),
        3 => calls(rt, Form::Answers, 1, 2),
        4 => log(rt),
        _ => Err(misused(rt)),
    }
}

fn misused(rt: &impl Eprint) -> Stop {
    console::usage(
        rt,
        b"usage: replay TREE [CALLS]\n       replay --log TREE CALLS\n",
    )
}

// Prints the tree.
fn show(rt: &(impl Env + Files + Print + Eprint)) -> Result<(), Stop> {
    let tree = console::tree_argument(rt, 1)?;
    console::say_tree(rt, tree).or(Err(Stop::Failed))
}

// The log, where the first argument asks for it.
fn log(rt: &(impl Env + Files + Print + Eprint)) -> Result<(), Stop> {
    let mut word = [0u8; ARGUMENT];
    let n = console::word(rt, 1, &mut word);
    if &word[..n] != b"--log".as_slice() {
        return Err(misused(rt));
    }
    calls(rt, Form::Log, 2, 3)
}

// Replays the calls over the tree, which are the arguments at these places.
fn calls(
    rt: &(impl Env + Files + Print + Eprint),
    form: Form,
    tree: usize,
    calls: usize,
) -> Result<(), Stop> {
    let tree = console::tree_argument(rt, tree)?;
    let mut name = [0u8; ARGUMENT];
    let n = console::name(rt, calls, b"CALLS", &mut name)?;
    let name = &name[..n];
    let mut file = console::open(rt, name).map_err(|error| console::fail(rt, name, error))?;
    turns::replay(rt, form, tree, &mut file, name)
}
