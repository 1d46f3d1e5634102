// What a host may ask of a state, and how many slots of the lent array hold a length: as many as packets wait.
ghost use Rattle.state.specs.State.{Reached};

use crate::calls::Scheduler;
use crate::trees;
use std::io;

pub fn run(scheduler: &mut Scheduler<impl Print + Eprint>) -> io::Result<()> {
    at_first(scheduler)?;
    on_the_way(scheduler)?;
    of_no_classes(scheduler)?;
    above_leaves(scheduler)
}

fn at_first(scheduler: &mut Scheduler<impl Print + Eprint>) -> io::Result<()> {
    scheduler.println("# asked of a state that has just started")?;
    scheduler.start(trees::tree_a(), 100)?;
    scheduler.ask(0)?;
    scheduler.ask(1)?;
    scheduler.ask(3)?;
    scheduler.ask(4294967295)?;
    scheduler.slots()
}

// Three packets wait, and the first of them leaves.
fn first_left(scheduler: &mut Scheduler<impl Print + Eprint>) -> io::Result<()>
    ensures { Reached scheduler.new.words scheduler.new.lengths }
{
    scheduler.start(trees::tree_a(), 100)?;
    scheduler.arrive(150, 1, 500)?;
    scheduler.arrive(150, 1, 500)?;
    scheduler.arrive(160, 2, 1000)?;
    scheduler.ask(1)?;
    scheduler.ask(2)?;
    scheduler.slots()?;
    scheduler.depart(200)
}

fn on_the_way(scheduler: &mut Scheduler<impl Print + Eprint>) -> io::Result<()> {
    scheduler.println("# asked on the way")?;
    first_left(scheduler)?;
    scheduler.ask(0)?;
    scheduler.ask(1)?;
    scheduler.ask(2)?;
    scheduler.slots()?;
    scheduler.depart(300)?;
    scheduler.ask(2)?;
    scheduler.depart(400)?;
    scheduler.ask(1)?;
    scheduler.slots()?;
    scheduler.arrive(500, 3, 500)?;
    scheduler.ask(3)?;
    scheduler.depart(600)?;
    scheduler.ask(0)
}

fn of_no_classes(scheduler: &mut Scheduler<impl Print + Eprint>) -> io::Result<()> {
    scheduler.println("# asked after a refused start")?;
    scheduler.start(trees::root(), 100)?;
    scheduler.depart(150)?;
    scheduler.ask(0)?;
    scheduler.ask(1)?;
    scheduler.slots()
}

// Of a class with children no packet waits, and it has a virtual time.
fn above_leaves(scheduler: &mut Scheduler<impl Print + Eprint>) -> io::Result<()> {
    scheduler.println("# asked of classes above a leaf")?;
    scheduler.start(trees::deep(), 0)?;
    scheduler.arrive(0, 8, 600)?;
    scheduler.arrive(0, 8, 600)?;
    scheduler.depart(0)?;
    scheduler.ask(0)?;
    scheduler.ask(7)?;
    scheduler.ask(8)?;
    scheduler.slots()
}
