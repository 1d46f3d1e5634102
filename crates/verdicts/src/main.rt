// Judges short logs, each for a sentence of request 4, over the class-tree file that its argument names, through the function for hosts in C, and prints a
// line a log: the answer, and the four numbers that say more. The tree is the studio's: its leaves are 3 to 7, and 2 has children.

#![tactic(auto)]

mod accepted;
mod started;
mod wrong;

use console::ARGUMENT;
use std::io;

fn main(rt: HostRuntime) -> io::Result<()> {
    let mut name = [0u8; ARGUMENT];
    let n = console::word(&rt, 1, &mut name);
    let mut bytes = [0u8; 4096];
    let Ok(n) = console::read_file(&rt, &name[..n], &mut bytes, b"too long") else {
        return Ok(());
    };
    accepted::run(&rt, &bytes[..n])?;
    wrong::run(&rt, &bytes[..n])?;
    started::run(&rt)
}

// The line of a log. What the numbers were before is no part of the answer.
fn tell(rt: &(impl Print + Eprint), what: &str, file: &[u8], log: &[u32]) -> io::Result<()> {
    let mut more = [77u64; 4];
    let said = host::hfsc_judge(file, 0, log, &mut more);
    let [a, b, c, d] = more;
    console::println(rt, format_args!("{what}: {said} {a} {b} {c} {d}"))
}
