// Reads each class-tree file that its arguments name, whole and in bursts, writes what it finds, and prints how each ends.

#![tactic(auto)]

mod cut;
mod writing;

use console::{ARGUMENT, TURN};
use print::Answer;
use std::io;
use std::rt::{Env, Files};
use tree::{Fault, Tree};

// What stands at a number that no class can have.
fn print_beyond(rt: &(impl Print + Eprint), tree: Tree) -> io::Result<()> {
    let class = tree::class_at(tree, 64);
    let parent = class.parent;
    let share = class.share;
    console::println(rt, format_args!("at 64: parent {parent} share {share}"))
}

// What a file reads as in bursts. Its tree is then seen by what is written of it.
fn print_answer(rt: &(impl Print + Eprint), answer: Option<Result<Tree, Fault>>) -> io::Result<()> {
    console::text(rt, b"in bursts: ")?;
    match answer {
        None => console::println(rt, "nothing yet"),
        Some(Ok(_)) => console::println(rt, "right"),
        Some(Err(fault)) => console::say(rt, Answer::from(fault)),
    }
}

// What the file of that name reads as.
fn print_file(rt: &(impl Files + Print + Eprint), name: &[u8]) -> io::Result<()> {
    let mut file = match console::open(rt, name) {
        Ok(file) => file,
        Err(error) => {
            console::fail(rt, name, error);
            return Ok(());
        }
    };
    let mut bytes = [0u8; TURN];
    let n = console::read_full(&mut file, &mut bytes)?;
    match file::reader::read(&bytes[..n]) {
        Ok(tree) => {
            console::say_tree(rt, tree)?;
            print_beyond(rt, tree)?;
        }
        Err(fault) => console::say(rt, Answer::from(fault))?,
    }
    let answer = cut::read(&bytes[..n]).answer;
    print_answer(rt, answer)?;
    writing::print(rt, tree_in(answer), &bytes[..n])
}

// The tree of no classes stands for what was refused.
fn tree_in(answer: Option<Result<Tree, Fault>>) -> Tree {
    match answer {
        Some(Ok(tree)) => tree,
        _ => tree::empty(),
    }
}

fn print_argument(rt: &(impl Env + Files + Print + Eprint), i: usize) -> io::Result<()> {
    let mut name = [0u8; ARGUMENT];
    let n = console::word(rt, i, &mut name);
    console::text(rt, &name[..n])?;
    console::text(rt, b"\n")?;
    print_file(rt, &name[..n])
}

fn main(rt: HostRuntime) -> io::Result<()> {
    for i in 1..console::arguments(&rt) {
        print_argument(&rt, i)?;
    }
    Ok(())
}
