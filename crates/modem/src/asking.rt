// The calls of the reader, each with a line of what it answers.
use bursts::{KEPT, Kept};
use state::table::{CELLS, PLACES};
use std::fmt::Display;
use std::io;

// What the reader is lent, and where its answers are printed.
#[derive(Drop)]
pub struct Reader<R> {
    pub kept: Kept,
    pub seen: [u64; 2],
    rt: R,
}

impl<R: Print + Eprint> Reader<R> {
    pub fn new(rt: R) -> Self {
        Reader {
            kept: [7; KEPT],
            seen: [7; 2],
            rt,
        }
    }

    // As `begin seen 60 0 at 57 1`: so many bytes, and whether the end was told. Then a byte that is kept.
    fn print_seen<D: Display + Drop>(&self, answered: D, at: usize) -> io::Result<()> {
        let [count, ended] = self.seen;
        let byte = self.kept.get(at).copied().unwrap_or(0);
        console::println(
            &self.rt,
            format_args!("{answered} seen {count} {ended} at {at} {byte}"),
        )
    }

    pub fn begin(&mut self) -> io::Result<()> {
        host::coming::hfsc_bursts_begin(&mut self.kept, &mut self.seen);
        self.print_seen("begin", 0)
    }

    // A burst, and the byte that is kept at a place then.
    pub fn offer(&mut self, burst: &[u8], at: usize) -> io::Result<()> {
        let refusal = host::coming::hfsc_bursts_offer(&mut self.kept, &mut self.seen, burst);
        let offered = burst.len();
        self.print_seen(format_args!("offer {offered} answers {refusal}"), at)
    }

    pub fn end(&mut self) -> io::Result<()> {
        let mut fault: u32 = 64;
        let refusal = host::coming::hfsc_bursts_end(&self.kept, &mut self.seen, &mut fault);
        self.print_seen(format_args!("end answers {refusal} class {fault}"), 0)
    }

    // A state starts with the stamp 9; a packet comes two ticks later.
    pub fn start(&mut self) -> io::Result<()> {
        let mut words = [0u64; CELLS];
        let mut lengths = [0u16; PLACES];
        let mut fault: u32 = 64;
        let refusal = host::coming::hfsc_start_bursts(
            &mut words,
            &mut lengths,
            &self.kept,
            &mut self.seen,
            9,
            &mut fault,
        );
        let told = self.seen[1];
        let mut packet: u64 = 64;
        let refused = host::hfsc_arrive(&mut words, &mut lengths, 11, 1, 100, &mut packet);
        let clock = host::hfsc_clock(&words, &lengths);
        console::println(
            &self.rt,
            format_args!(
                "start answers {refusal} class {fault} told {told} arrive {refused} clock {clock}"
            ),
        )
    }
}
