// Runs the rows of document 01's table, and more that its text fixes, through start, arrive and depart,
// and prints a line a fact.

#![tactic(auto)]

use calls::Scheduler;
use std::io;

mod asked;
mod calls;
mod choices;
mod curves;
mod hosts;
mod refusals;
mod rows;
mod stamps;
mod trees;

fn main(rt: HostRuntime) -> io::Result<()> {
    let mut scheduler = Scheduler::new(&rt);
    rows::run(&mut scheduler)?;
    stamps::run(&mut scheduler)?;
    refusals::run(&mut scheduler)?;
    choices::run(&mut scheduler)?;
    asked::run(&mut scheduler)?;
    curves::run(&rt)?;
    hosts::run(&rt)
}
