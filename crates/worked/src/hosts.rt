// The functions for hosts in C: each is called, and what it writes to the places that it is lent is printed.
ghost use Rattle.state.specs.State.{Reached};

use state::table::{CELLS, Lengths, PLACES, Words};
use std::io;

pub fn run(rt: &(impl Print + Eprint)) -> io::Result<()> {
    // a start fills the arrays, whatever they held
    let mut host = Host {
        words: [u64::MAX; CELLS],
        lengths: [u16::MAX; PLACES],
        rt,
    };
    by_words(&mut host)?;
    by_file(&mut host)?;
    refused(&mut host)?;
    written(rt)
}

// A state, and where the answers are printed.
// Stays: `Reached` is said by each method, and is no ghost field: it holds a history, and a ghost field takes facts of one proof alone.
#[derive(Drop)]
struct Host<R> {
    words: Words,
    lengths: Lengths,
    rt: R,
}

impl<R: Print + Eprint> Host<R> {
    // As `start 0 fault 0`.
    fn started(&self, refusal: u32, fault: u32) -> io::Result<()> {
        console::println(&self.rt, format_args!("start {refusal} fault {fault}"))
    }

    fn start(&mut self, tree: &[u32], stamp: u32) -> io::Result<()>
        ensures { Reached self.new.words self.new.lengths }
    {
        let mut fault: u32 = 64;
        let refusal = host::hfsc_start_words(
            &mut self.words,
            &mut self.lengths,
            tree,
            stamp,
            &mut fault,
        );
        self.started(refusal, fault)
    }

    fn start_file(&mut self, file: &[u8], stamp: u32) -> io::Result<()>
        ensures { Reached self.new.words self.new.lengths }
    {
        let mut fault: u32 = 64;
        let refusal = host::hfsc_start_file(
            &mut self.words,
            &mut self.lengths,
            file,
            stamp,
            &mut fault,
        );
        self.started(refusal, fault)
    }

    // As `arrive 0 number 1`.
    fn arrive(&mut self, stamp: u32, class: u32, length: u32) -> io::Result<()>
        requires { Reached self.old.words self.old.lengths }
        ensures { Reached self.new.words self.new.lengths }
    {
        let mut number: u64 = 64;
        let refusal = host::hfsc_arrive(
            &mut self.words,
            &mut self.lengths,
            stamp,
            class,
            length,
            &mut number,
        );
        console::println(&self.rt, format_args!("arrive {refusal} number {number}"))
    }

    // As `depart 0 says 1 1 0 500 1 1 50 1090`, in the order of the header.
    fn depart(&mut self, stamp: u32) -> io::Result<()>
        requires { Reached self.old.words self.old.lengths }
        ensures { Reached self.new.words self.new.lengths }
    {
        let mut out = [64u64; 8];
        let refusal = host::hfsc_depart(&mut self.words, &mut self.lengths, stamp, &mut out);
        let [
            leaves,
            class,
            number,
            length,
            rule,
            timed,
            eligible,
            deadline,
        ] = out;
        console::println(
            &self.rt,
            format_args!(
                "depart {refusal} says {leaves} {class} {number} {length} {rule} {timed} {eligible} {deadline}"
            ),
        )
    }

    // As `clock 60 class 1 waiting 2 virtual 0 head 1 50 1090`.
    fn ask(&self, class: u32) -> io::Result<()>
        requires { Reached self.now.words self.now.lengths }
    {
        let mut head = [64u64; 3];
        host::hfsc_head_times(&self.words, &self.lengths, class, &mut head);
        let [timed, eligible, deadline] = head;
        let clock = host::hfsc_clock(&self.words, &self.lengths);
        let waiting = host::hfsc_waiting(&self.words, &self.lengths, class);
        let virtual_time = host::hfsc_virtual_time(&self.words, &self.lengths, class);
        console::println(
            &self.rt,
            format_args!(
                "clock {clock} class {class} waiting {waiting} virtual {virtual_time} head {timed} {eligible} {deadline}"
            ),
        )
    }
}

// Document 01's example tree as words, and three packets wait.
fn three_wait(host: &mut Host<impl Print + Eprint>) -> io::Result<()>
    ensures { Reached host.new.words host.new.lengths }
{
    let tree = [
        3u32, 0, 65536, 0, 0, 0, 0, 0, 16384, 2, 32768, 2000, 16384, 0, 49152, 3, 2000, 32768, 0,
    ];
    host.start(&tree, 100)?;
    host.arrive(150, 1, 500)?;
    host.arrive(150, 1, 500)?;
    host.arrive(160, 2, 1000)?;
    host.arrive(160, 3, 500)
}

fn by_words(host: &mut Host<impl Print + Eprint>) -> io::Result<()> {
    console::println(&host.rt, "# for hosts in C: a tree as words")?;
    three_wait(host)?;
    host.ask(1)?;
    host.ask(2)?;
    host.depart(200)?;
    host.ask(1)?;
    host.ask(2)?;
    host.depart(300)?;
    host.depart(400)?;
    host.depart(500)?;
    host.depart(2147484148)?;
    host.ask(1)?;
    host.ask(2)
}

// The smallest straight tree in full, as document 01 has it.
fn by_file(host: &mut Host<impl Print + Eprint>) -> io::Result<()> {
    console::println(&host.rt, "# for hosts in C: a tree as a file")?;
    host.start_file(
        b"\x01\x02\x03\x04\x00\x00\x00\x01\x00\x00\x00\x02\x00\x00\x00\x3C\x00\x00\x00\x20\x00\x00\x00\x0C\x00\x00\x00\x2C\x00\x00\x00\x10\x00\x00\x00\x00\x00\x01\x00\x00\x00\x00\x00\x00\x00\x00\x00\x00\x00\x01\x00\x00\x00\x00\x00\x01\x00\x01\x00\x00",
        7,
    )?;
    host.arrive(7, 1, 500)?;
    host.ask(1)
}

// A class of kind 4, and a file of a few bytes.
fn refused(host: &mut Host<impl Print + Eprint>) -> io::Result<()> {
    console::println(&host.rt, "# for hosts in C: refused")?;
    let kind = [2u32, 0, 65536, 0, 0, 0, 0, 0, 1, 4, 1, 0, 0];
    host.start(&kind, 0)?;
    host.start_file(b"short", 0)?;
    host.arrive(0, 1, 500)
}

// As `write 0 total 60 fault 0`.
fn writes(rt: &(impl Print + Eprint), tree: &[u32], out: &mut [u8]) -> io::Result<()> {
    let mut total: u32 = 64;
    let mut fault: u32 = 64;
    let refusal = host::hfsc_write(tree, out, &mut total, &mut fault);
    console::println(
        rt,
        format_args!("write {refusal} total {total} fault {fault}"),
    )
}

// With just enough room, with a byte less, and a tree that is refused. What is written starts the scheduler.
fn written(rt: &(impl Print + Eprint)) -> io::Result<()> {
    console::println(rt, "# for hosts in C: a tree written")?;
    let small = [2u32, 0, 65536, 0, 0, 0, 0, 0, 1, 1, 65536, 0, 0];
    let kind = [2u32, 0, 65536, 0, 0, 0, 0, 0, 1, 4, 1, 0, 0];
    let mut exact = [0u8; 60];
    let mut less = [0u8; 59];
    writes(rt, &small, &mut exact)?;
    writes(rt, &small, &mut less)?;
    writes(rt, &kind, &mut exact)?;
    let first = exact[0];
    let share = exact[57];
    console::println(rt, format_args!("byte 0 of the file {first}"))?;
    console::println(rt, format_args!("byte 57 of the file {share}"))
}
