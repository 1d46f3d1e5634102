// Stamps and the clock: the rows of document 01's table that are not marked P, and the clock's edges.
ghost use Rattle.state.specs.State.{Reached};

use crate::calls::Scheduler;
use crate::trees;
use std::io;

pub fn run(scheduler: &mut Scheduler<impl Print + Eprint>) -> io::Result<()> {
    round(scheduler)?;
    kept(scheduler)?;
    too_far(scheduler)?;
    idle(scheduler)?;
    last_tick(scheduler)
}

fn round(scheduler: &mut Scheduler<impl Print + Eprint>) -> io::Result<()> {
    scheduler.println("# stamp 4,294,967,290, then 10: 16 elapsed")?;
    scheduler.start(trees::tree_a(), 4294967290)?;
    scheduler.arrive(10, 1, 500)?;
    scheduler.depart(10)
}

fn kept(scheduler: &mut Scheduler<impl Print + Eprint>) -> io::Result<()> {
    scheduler.println("# elapsed 2,147,483,647: kept")?;
    scheduler.start(trees::tree_a(), 7)?;
    scheduler.arrive(2147483654, 1, 500)?;
    scheduler.depart(2147483654)
}

// The call that is refused moves neither the clock nor the kept stamp.
fn too_far(scheduler: &mut Scheduler<impl Print + Eprint>) -> io::Result<()> {
    scheduler.println("# elapsed 2,147,483,648: 14")?;
    scheduler.start(trees::tree_a(), 7)?;
    scheduler.arrive(2147483655, 1, 500)?;
    scheduler.depart(2147483655)?;
    scheduler.arrive(8, 1, 500)?;
    scheduler.depart(6)?;
    scheduler.depart(8)
}

fn idle(scheduler: &mut Scheduler<impl Print + Eprint>) -> io::Result<()> {
    scheduler.println("# none waits moves the clock")?;
    scheduler.start(trees::tree_a(), 0)?;
    scheduler.depart(2147483647)?;
    scheduler.arrive(2147483648, 1, 500)?;
    scheduler.depart(2147483648)
}

// A departure at that stamp: whether none waited.
fn is_idle(scheduler: &mut Scheduler<impl Print + Eprint>, stamp: u32) -> bool
    requires { Reached scheduler.old.words scheduler.old.lengths }
    ensures { Reached scheduler.new.words scheduler.new.lengths }
{
    let departure = sched::depart(&mut scheduler.words, &mut scheduler.lengths, stamp);
    matches!(departure, Ok(None))
}

// So many departures, each 2,147,483,647 ticks after the one before, from stamp 0 on.
fn wait(scheduler: &mut Scheduler<impl Print + Eprint>, times: u32) -> io::Result<()>
    requires { Reached scheduler.old.words scheduler.old.lengths }
    ensures { Reached scheduler.new.words scheduler.new.lengths }
{
    let mut stamp: u32 = 0;
    let mut idle: u32 = 0;
    for _turn in 0..times {
        stamp = stamp.wrapping_add(2147483647);
        if is_idle(scheduler, stamp) {
            idle += 1;
        }
    }
    scheduler.println(format_args!("none waits, times {idle}"))
}

// 512 times 2,147,483,647 is 2^40 less 512; the stamp is then 2^32 less 512.
fn last_tick(scheduler: &mut Scheduler<impl Print + Eprint>) -> io::Result<()> {
    scheduler.println("# the clock at 2^40, and one tick more: 15")?;
    scheduler.start(trees::tree_a(), 0)?;
    wait(scheduler, 512)?;
    scheduler.arrive(1, 1, 500)?;
    scheduler.depart(1)?;
    scheduler.arrive(0, 1, 500)?;
    scheduler.arrive(1, 3, 0)?;
    scheduler.depart(2147483648)?;
    scheduler.depart(1)?;
    scheduler.depart(0)
}
