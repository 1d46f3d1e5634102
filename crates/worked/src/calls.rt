// The calls of the scheduler, each with its answer printed.
ghost use Rattle.state.specs.State.{Reached};

use rules::Times;
use state::table::{CELLS, Lengths, PLACES, Words};
use std::fmt::Display;
use std::io;
use tree::Tree;

// A state, and where the answers are printed.
// Stays: `Reached` is said by each method, and is no ghost field: it holds a history, and a ghost field takes facts of one proof alone.
#[derive(Drop)]
pub struct Scheduler<R> {
    pub words: Words,
    pub lengths: Lengths,
    rt: R,
}

impl<R: Print + Eprint> Scheduler<R> {
    pub fn new(rt: R) -> Self {
        Scheduler {
            words: [0; CELLS],
            lengths: [0; PLACES],
            rt,
        }
    }

    pub fn println<D: Display + Drop>(&self, shown: D) -> io::Result<()> {
        console::println(&self.rt, shown)
    }

    pub fn start(&mut self, tree: Tree, stamp: u32) -> io::Result<()>
        ensures { Reached self.new.words self.new.lengths }
    {
        let verdict = sched::start(tree, stamp, &mut self.words, &mut self.lengths);
        console::say(&self.rt, print::start(verdict, tree.count))
    }

    pub fn arrive(&mut self, stamp: u32, class: u32, length: u32) -> io::Result<()>
        requires { Reached self.old.words self.old.lengths }
        ensures { Reached self.new.words self.new.lengths }
    {
        let arrival = sched::arrive(&mut self.words, &mut self.lengths, stamp, class, length);
        console::say(&self.rt, print::arrival(arrival))
    }

    pub fn depart(&mut self, stamp: u32) -> io::Result<()>
        requires { Reached self.old.words self.old.lengths }
        ensures { Reached self.new.words self.new.lengths }
    {
        let departure = sched::depart(&mut self.words, &mut self.lengths, stamp);
        console::say(&self.rt, print::departure(departure))
    }

    // The virtual times of two classes.
    pub fn virtual_times(&self, a: u32, b: u32) -> io::Result<()>
        requires { Reached self.now.words self.now.lengths }
    {
        let first = sched::readers::virtual_time(&self.words, &self.lengths, a);
        let second = sched::readers::virtual_time(&self.words, &self.lengths, b);
        self.println(format_args!("virtual times {first} and {second}"))
    }

    // The clock, and what may be asked of a class: as `clock 60 class 1 waiting 2 virtual 0 eligible 50 deadline 1050`, with both times
    // for a leaf with a real-time curve.
    pub fn ask(&self, class: u32) -> io::Result<()>
        requires { Reached self.now.words self.now.lengths }
    {
        let clock = sched::readers::clock(&self.words, &self.lengths);
        let waiting = sched::readers::waiting(&self.words, &self.lengths, class);
        let virtual_time = sched::readers::virtual_time(&self.words, &self.lengths, class);
        let asked = format_args!(
            "clock {clock} class {class} waiting {waiting} virtual {virtual_time}"
        );
        match sched::readers::head_times(&self.words, &self.lengths, class) {
            None => self.println(asked),
            Some(Times { eligible, deadline }) => {
                self.println(format_args!("{asked} eligible {eligible} deadline {deadline}"))
            }
        }
    }

    // How many slots of the lent array hold a length.
    pub fn slots(&self) -> io::Result<()> {
        let held = self.lengths.iter().filter(|length| **length != 0).count();
        self.println(format_args!("slots in use {held}"))
    }
}
