// Sends class-tree files in bursts through the functions for hosts in C, and prints what each call answers and what was
// seen then.

#![tactic(auto)]

use asking::Reader;
use std::io;

mod asking;
mod lengthy;
mod smallest;

fn main(rt: HostRuntime) -> io::Result<()> {
    let mut reader = Reader::new(&rt);
    smallest::run(&mut reader)?;
    lengthy::run(&mut reader)
}
