// Which packet leaves.
ghost use Rattle.state.specs.State.{Reached};

use crate::calls::Scheduler;
use crate::trees;
use curve::Curve;
use std::io;

pub fn run(scheduler: &mut Scheduler<impl Print + Eprint>) -> io::Result<()> {
    same_deadline(scheduler)?;
    same_virtual(scheduler)?;
    between(scheduler)?;
    deep(scheduler)?;
    deep_again(scheduler)
}

fn same_deadline(scheduler: &mut Scheduler<impl Print + Eprint>) -> io::Result<()> {
    scheduler.println("# equal deadlines: the lowest class number")?;
    let half = Curve::Straight { rate: 32768 };
    scheduler.start(trees::pair(1, half, 65536, half), 0)?;
    scheduler.arrive(0, 2, 500)?;
    scheduler.arrive(0, 1, 500)?;
    scheduler.depart(0)?;
    scheduler.depart(520)
}

fn same_virtual(scheduler: &mut Scheduler<impl Print + Eprint>) -> io::Result<()> {
    scheduler.println("# equal virtual times: the lowest class number")?;
    scheduler.start(trees::pair(65536, Curve::None, 65536, Curve::None), 0)?;
    scheduler.arrive(0, 2, 100)?;
    scheduler.arrive(0, 2, 101)?;
    scheduler.arrive(0, 1, 100)?;
    scheduler.arrive(0, 1, 101)?;
    scheduler.depart(0)?;
    scheduler.depart(120)?;
    scheduler.depart(240)?;
    scheduler.depart(361)?;
    scheduler.depart(482)
}

// Leaf 3 turns active while 1 and 2 are at 121 and 480: it starts at 300, which leaf 1 reaches too.
fn between(scheduler: &mut Scheduler<impl Print + Eprint>) -> io::Result<()> {
    scheduler.println("# a class turns active between two others")?;
    scheduler.start(trees::bare(), 0)?;
    scheduler.arrive(0, 1, 101)?;
    scheduler.arrive(0, 1, 159)?;
    scheduler.arrive(0, 1, 1)?;
    scheduler.arrive(0, 1, 1)?;
    scheduler.arrive(0, 2, 100)?;
    scheduler.arrive(0, 2, 100)?;
    scheduler.depart(0)?;
    scheduler.depart(0)?;
    scheduler.virtual_times(1, 2)?;
    scheduler.arrive(0, 3, 100)?;
    scheduler.virtual_times(2, 3)?;
    scheduler.depart(0)?;
    scheduler.depart(0)?;
    scheduler.depart(0)?;
    scheduler.depart(0)?;
    scheduler.depart(0)
}

// Two packets of 600 in each leaf of the deep tree, and all leave.
fn deep_sent(scheduler: &mut Scheduler<impl Print + Eprint>) -> io::Result<()>
    ensures { Reached scheduler.new.words scheduler.new.lengths }
{
    scheduler.start(trees::deep(), 0)?;
    scheduler.arrive(0, 8, 600)?;
    scheduler.arrive(0, 8, 600)?;
    scheduler.arrive(0, 9, 600)?;
    scheduler.arrive(0, 9, 600)?;
    scheduler.arrive(0, 10, 600)?;
    scheduler.arrive(0, 10, 600)?;
    scheduler.depart(0)?;
    scheduler.depart(620)?;
    scheduler.depart(1240)?;
    scheduler.depart(1860)?;
    scheduler.depart(2480)?;
    scheduler.depart(3100)
}

fn deep(scheduler: &mut Scheduler<impl Print + Eprint>) -> io::Result<()> {
    scheduler.println("# a tree of depth 8")?;
    deep_sent(scheduler)?;
    scheduler.depart(3720)?;
    scheduler.virtual_times(1, 10)?;
    scheduler.virtual_times(8, 9)
}

fn deep_again(scheduler: &mut Scheduler<impl Print + Eprint>) -> io::Result<()> {
    scheduler.println("# a tree of depth 8, active again")?;
    deep_sent(scheduler)?;
    scheduler.arrive(9000, 10, 600)?;
    scheduler.arrive(9000, 8, 600)?;
    scheduler.arrive(9000, 9, 600)?;
    scheduler.virtual_times(1, 10)?;
    scheduler.virtual_times(8, 9)?;
    scheduler.depart(9000)?;
    scheduler.depart(9620)?;
    scheduler.depart(10240)
}
