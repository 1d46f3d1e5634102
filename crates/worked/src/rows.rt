// The rows of document 01's table that are marked P, in its order, with each departure at the first tick
// at which the link is free.
ghost use Rattle.state.specs.State.{Reached};

use crate::calls::Scheduler;
use crate::trees;
use curve::Curve;
use std::io;

pub fn run(scheduler: &mut Scheduler<impl Print + Eprint>) -> io::Result<()> {
    first_of_one(scheduler)?;
    first_of_two(scheduler)?;
    both_wait(scheduler)?;
    later(scheduler)?;
    instead(scheduler)?;
    delayed_again(scheduler)?;
    three(scheduler)?;
    both_again(scheduler)?;
    fits(scheduler)
}

fn first_of_one(scheduler: &mut Scheduler<impl Print + Eprint>) -> io::Result<()> {
    scheduler.println("# leaf 1, first packet 500 at 0")?;
    scheduler.start(trees::tree_a(), 0)?;
    scheduler.arrive(0, 1, 500)?;
    scheduler.depart(0)
}

fn first_of_two(scheduler: &mut Scheduler<impl Print + Eprint>) -> io::Result<()> {
    scheduler.println("# leaf 2, first packet 1,000 at 0")?;
    scheduler.start(trees::tree_a(), 0)?;
    scheduler.arrive(0, 2, 1000)?;
    scheduler.depart(0)
}

// Leaf 1 has 500 and leaf 2 has 1,000 from tick 0 on, and both leave.
fn both_sent(scheduler: &mut Scheduler<impl Print + Eprint>) -> io::Result<()>
    ensures { Reached scheduler.new.words scheduler.new.lengths }
{
    scheduler.start(trees::tree_a(), 0)?;
    scheduler.arrive(0, 1, 500)?;
    scheduler.arrive(0, 2, 1000)?;
    scheduler.depart(0)?;
    scheduler.depart(520)
}

fn both_wait(scheduler: &mut Scheduler<impl Print + Eprint>) -> io::Result<()> {
    scheduler.println("# both wait; departures at 0 and 520")?;
    both_sent(scheduler)?;
    scheduler.virtual_times(1, 2)
}

fn later(scheduler: &mut Scheduler<impl Print + Eprint>) -> io::Result<()> {
    scheduler.println("# then leaf 1 gets 500 at 5,000")?;
    both_sent(scheduler)?;
    scheduler.arrive(5000, 1, 500)?;
    scheduler.depart(5000)
}

fn instead(scheduler: &mut Scheduler<impl Print + Eprint>) -> io::Result<()> {
    scheduler.println("# instead leaf 1 gets 500 at 600")?;
    both_sent(scheduler)?;
    scheduler.arrive(600, 1, 500)?;
    scheduler.depart(1540)
}

fn delayed_again(scheduler: &mut Scheduler<impl Print + Eprint>) -> io::Result<()> {
    scheduler.println(
        "# leaf 2 first waits at 0, sent 1,000 by the real-time rule; gets 1,000 at 1,000",
    )?;
    scheduler.start(trees::tree_a(), 0)?;
    scheduler.arrive(0, 2, 1000)?;
    scheduler.depart(0)?;
    scheduler.arrive(1000, 2, 1000)?;
    scheduler.depart(2040)
}

fn three(scheduler: &mut Scheduler<impl Print + Eprint>) -> io::Result<()> {
    scheduler.println("# leaf 1 alone, three of 500 at 0; departures 0, 520, 1,040")?;
    scheduler.start(trees::tree_a(), 0)?;
    scheduler.arrive(0, 1, 500)?;
    scheduler.arrive(0, 1, 500)?;
    scheduler.arrive(0, 1, 500)?;
    scheduler.depart(0)?;
    scheduler.depart(520)?;
    scheduler.depart(1040)
}

fn both_again(scheduler: &mut Scheduler<impl Print + Eprint>) -> io::Result<()> {
    scheduler.println("# both passive at 2,080 and 1,360; leaf 2 then leaf 1 turn active")?;
    both_sent(scheduler)?;
    scheduler.arrive(5000, 2, 1000)?;
    scheduler.arrive(5000, 1, 500)?;
    scheduler.virtual_times(1, 2)
}

// Starts a tree of two leaves with these curves.
fn pair(
    scheduler: &mut Scheduler<impl Print + Eprint>,
    first: Curve,
    second: Curve,
) -> io::Result<()> {
    scheduler.start(trees::pair(32768, first, 32768, second), 0)
}

fn fits(scheduler: &mut Scheduler<impl Print + Eprint>) -> io::Result<()> {
    let half = Curve::Straight { rate: 32768 };
    let more = Curve::Straight { rate: 32769 };
    let one = Curve::Straight { rate: 1 };
    let below = Curve::FrontLoaded {
        first: 65535,
        bend: 1,
        last: 1,
    };
    let whole = Curve::FrontLoaded {
        first: 65536,
        bend: 1,
        last: 1,
    };
    scheduler.println("# straight 32,768 and 32,768")?;
    pair(scheduler, half, half)?;
    scheduler.println("# straight 32,769 and 32,768")?;
    pair(scheduler, more, half)?;
    scheduler.println("# front-loaded 65,535 / 1 / 1 with straight 1")?;
    pair(scheduler, below, one)?;
    scheduler.println("# front-loaded 65,536 / 1 / 1 with straight 1")?;
    pair(scheduler, whole, one)
}
