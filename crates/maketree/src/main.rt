// Makes a class-tree file from the text of a tree, as docs/FORMS.md sets both down.

#![tactic(auto)]

mod saving;

use console::{ARGUMENT, Stop, TURN};
use print::Answer;
use std::rt::{Env, Files};
use tree::Tree;
use treetext::Fault;

fn main(rt: HostRuntime) {
    console::end(&rt, make(&rt));
}

fn make(rt: &(impl Env + Files + Print + Eprint)) -> Result<(), Stop> {
    if console::arguments(rt) != 3 {
        return Err(console::usage(rt, b"usage: maketree TEXT TREE\n"));
    }
    let mut name = [0u8; ARGUMENT];
    let n = console::name(rt, 1, b"TEXT", &mut name)?;
    text_file(rt, &name[..n])
}

// Reads the text, and goes on with its tree.
fn text_file(rt: &(impl Env + Files + Print + Eprint), name: &[u8]) -> Result<(), Stop> {
    let mut bytes = [0u8; TURN];
    let n = console::read_file(
        rt,
        name,
        &mut bytes,
        b"longer than 65536 bytes, no text of a tree",
    )?;
    let draft = treetext::read(&bytes[..n]);
    match draft.fault {
        Some(Fault { line, wrong }) => Err(console::refuse(
            rt,
            Answer::Faulty {
                number: line,
                wrong,
            },
        )),
        None => tree_file(rt, draft.tree),
    }
}

// Writes the tree's file into memory, and saves it where it is not refused.
fn tree_file(rt: &(impl Env + Files + Print + Eprint), tree: Tree) -> Result<(), Stop> {
    let mut bytes = [0u8; 4096];
    match file::writer::write(tree, &mut bytes) {
        Ok(total) => saving::save(rt, &bytes[..total as usize]),
        Err(fault) => Err(console::refuse(rt, Answer::from(fault))),
    }
}
