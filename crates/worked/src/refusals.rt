// Refusals at their edges.
ghost use Rattle.state.specs.State.{Reached};

use crate::calls::Scheduler;
use crate::trees;
use curve::Curve;
use std::io;

pub fn run(scheduler: &mut Scheduler<impl Print + Eprint>) -> io::Result<()> {
    leaves(scheduler)?;
    sizes(scheduler)?;
    room(scheduler)?;
    order(scheduler)?;
    same(scheduler)?;
    refused_start(scheduler)?;
    trees_refused(scheduler)
}

fn leaves(scheduler: &mut Scheduler<impl Print + Eprint>) -> io::Result<()> {
    scheduler.println("# class number absent, or not a leaf: 11")?;
    scheduler.start(trees::deep(), 0)?;
    scheduler.arrive(0, 0, 500)?;
    scheduler.arrive(0, 7, 500)?;
    scheduler.arrive(0, 10, 500)?;
    scheduler.arrive(0, 11, 500)?;
    scheduler.arrive(0, 64, 500)?;
    scheduler.arrive(0, 4294967295, 500)
}

fn sizes(scheduler: &mut Scheduler<impl Print + Eprint>) -> io::Result<()> {
    scheduler.println("# packet length outside 1 to 9,000: 12")?;
    scheduler.start(trees::tree_a(), 0)?;
    scheduler.arrive(0, 1, 0)?;
    scheduler.arrive(0, 1, 1)?;
    scheduler.arrive(0, 1, 9000)?;
    scheduler.arrive(0, 1, 9001)?;
    scheduler.arrive(0, 1, 4294967295)
}

// An arrival for leaf 1: whether it was accepted.
fn is_accepted(scheduler: &mut Scheduler<impl Print + Eprint>, length: u32) -> bool
    requires { Reached scheduler.old.words scheduler.old.lengths }
    ensures { Reached scheduler.new.words scheduler.new.lengths }
{
    let arrival = sched::arrive(&mut scheduler.words, &mut scheduler.lengths, 0, 1, length);
    arrival.is_ok()
}

// So many arrivals for leaf 1 at stamp 0, of lengths 1, 2, 3, ..
fn fill(scheduler: &mut Scheduler<impl Print + Eprint>, times: u32) -> io::Result<()>
    requires { Reached scheduler.old.words scheduler.old.lengths }
    ensures { Reached scheduler.new.words scheduler.new.lengths }
{
    let mut accepted: u32 = 0;
    for i in 0..times {
        if is_accepted(scheduler, i + 1) {
            accepted += 1;
        }
    }
    scheduler.println(format_args!("accepted, times {accepted}"))
}

fn room(scheduler: &mut Scheduler<impl Print + Eprint>) -> io::Result<()> {
    scheduler.println("# 64 already wait in that leaf: 13; room again after a departure")?;
    scheduler.start(trees::tree_a(), 0)?;
    fill(scheduler, 64)?;
    scheduler.arrive(0, 1, 700)?;
    scheduler.arrive(0, 2, 700)?;
    scheduler.depart(0)?;
    scheduler.arrive(0, 1, 700)?;
    scheduler.arrive(0, 1, 700)
}

// Of several rules that a call breaks the first in this order is named.
fn order(scheduler: &mut Scheduler<impl Print + Eprint>) -> io::Result<()> {
    scheduler.println("# an arrival checks 14, 11, 12, 13")?;
    scheduler.start(trees::tree_a(), 0)?;
    fill(scheduler, 64)?;
    scheduler.arrive(2147483648, 3, 0)?;
    scheduler.arrive(0, 3, 0)?;
    scheduler.arrive(0, 1, 0)?;
    scheduler.arrive(0, 1, 700)
}

// After a refused call at 100 a call at 50 is 50 ticks after the start, and at 49 it is too far.
fn same(scheduler: &mut Scheduler<impl Print + Eprint>) -> io::Result<()> {
    scheduler.println("# a refused call changes nothing")?;
    scheduler.start(trees::tree_a(), 0)?;
    scheduler.arrive(100, 3, 500)?;
    scheduler.arrive(100, 1, 9001)?;
    scheduler.arrive(50, 1, 500)?;
    scheduler.depart(49)?;
    scheduler.depart(50)
}

fn refused_start(scheduler: &mut Scheduler<impl Print + Eprint>) -> io::Result<()> {
    scheduler.println("# a refused start")?;
    let half = Curve::Straight { rate: 32768 };
    let more = Curve::Straight { rate: 32769 };
    scheduler.start(trees::pair(32768, more, 32768, half), 5)?;
    scheduler.arrive(5, 1, 500)?;
    scheduler.arrive(2147483653, 1, 500)?;
    scheduler.arrive(5, 0, 0)?;
    scheduler.depart(2147483653)?;
    scheduler.depart(2147483652)?;
    scheduler.depart(2147483653)
}

fn trees_refused(scheduler: &mut Scheduler<impl Print + Eprint>) -> io::Result<()> {
    scheduler.println("# trees that are refused")?;
    let none = Curve::None;
    let one = Curve::Straight { rate: 1 };
    let front = Curve::FrontLoaded {
        first: 2,
        bend: 1,
        last: 2,
    };
    scheduler.start(tree::empty(), 0)?;
    scheduler.start(trees::root(), 0)?;
    scheduler.start(trees::counted(trees::tree_a(), 65), 0)?;
    scheduler.start(trees::pair(1, none, 65537, none), 0)?;
    scheduler.start(trees::pair(1, front, 0, none), 0)?;
    scheduler.start(trees::too_deep(), 0)?;
    scheduler.start(trees::with(trees::pair(1, one, 1, one), 2, 1, one), 0)
}
