// The calls, and the sums over their answers.
ghost use Rattle.state.specs.State.{Reached};

use crate::trees;
use rules::{Packet, Rule, Times};
use state::table::{CELLS, Lengths, PLACES, Words};
use tree::Refusal;

// What is noted of a refusal, and where none waits.
const NO_PACKET: u64 = 4294967296;

// The sums over the answers.
#[derive(Clone, Copy)]
pub struct Tally {
    pub left: u64,
    pub sum: u64,
    pub mix: u64,
}

impl Tally {
    // One number more: the second sum depends on the order.
    fn note(&mut self, number: u64) {
        self.sum = self.sum.wrapping_add(number);
        self.mix = self.mix.wrapping_add(self.sum);
    }

    fn note_packet(&mut self, packet: Packet) {
        self.note(packet.class as u64);
        self.note(packet.number);
        self.left = self.left.wrapping_add(1);
        if let Rule::RealTime = packet.rule {
            self.note(1);
        }
        if let Some(Times { eligible, deadline }) = packet.times {
            self.note(eligible);
            self.note(deadline);
        }
    }
}

// The scheduler; its tree; the generator's last number; the last stamp; the packet that left last, its leaf and the ticks that it
// holds the link; the sums.
// Stays: `Reached` is said by each method, and is no ghost field: it holds a history, and a ghost field takes facts of one proof alone.
#[derive(Drop)]
pub struct Drive {
    words: Words,
    lengths: Lengths,
    above: u8,
    leaves: u8,
    seed: u32,
    stamp: u32,
    class: u32,
    ticks: u32,
    pub tally: Tally,
}

impl Drive {
    pub fn new(above: u8, leaves: u8, seed: u32) -> Self
        ensures { Reached result.words result.lengths }
    {
        let mut words = [0; CELLS];
        let mut lengths = [0; PLACES];
        let _ = sched::start(trees::grown(above, leaves), 0, &mut words, &mut lengths);
        Drive {
            words,
            lengths,
            above,
            leaves,
            seed,
            stamp: 0,
            class: 0,
            ticks: 0,
            tally: Tally {
                left: 0,
                sum: 0,
                mix: 0,
            },
        }
    }

    // A packet arrives after a pause.
    fn arrive(&mut self, class: u32, pause: u32)
        requires { Reached self.old.words self.old.lengths }
        ensures { Reached self.new.words self.new.lengths }
    {
        self.seed = next(self.seed);
        self.stamp = self.stamp.wrapping_add(pause);
        let length = 1 + self.seed / 65536 * 1500 / 65536;
        match sched::arrive(
            &mut self.words,
            &mut self.lengths,
            self.stamp,
            class,
            length,
        ) {
            Ok(number) => self.tally.note(number),
            Err(_) => self.tally.note(NO_PACKET),
        }
    }

    // The link asks again as soon as the last packet is sent.
    fn depart(&mut self)
        requires { Reached self.old.words self.old.lengths }
        ensures { Reached self.new.words self.new.lengths }
    {
        self.stamp = self.stamp.wrapping_add(self.ticks);
        match sched::depart(&mut self.words, &mut self.lengths, self.stamp) {
            Ok(Some(packet)) => {
                self.class = packet.class;
                self.ticks = (rules::weigh(packet.length) % 4294967296) as u32;
                self.tally.note_packet(packet);
            }
            _ => self.tally.note(NO_PACKET),
        }
    }

    // A packet of so many bytes for the first leaf: why it is refused.
    pub fn offer(&mut self, length: u32) -> Option<Refusal>
        requires { Reached self.old.words self.old.lengths }
        ensures { Reached self.new.words self.new.lengths }
    {
        let class = self.above as u32 + 1;
        sched::arrive(
            &mut self.words,
            &mut self.lengths,
            self.stamp,
            class,
            length,
        )
        .err()
    }

    fn twenty_arrive(&mut self)
        requires { Reached self.old.words self.old.lengths }
        ensures { Reached self.new.words self.new.lengths }
    {
        for _ in 0..20u32 {
            let leaf = self.seed / 65536 * self.leaves as u32 / 65536;
            self.arrive(self.above as u32 + 1 + leaf, self.seed % 1024);
        }
    }

    fn twenty_depart(&mut self)
        requires { Reached self.old.words self.old.lengths }
        ensures { Reached self.new.words self.new.lengths }
    {
        for _ in 0..20u32 {
            self.depart();
        }
    }

    // Bursts: all packets of one have left before the next comes.
    pub fn bursts(&mut self, pairs: u32)
        requires { Reached self.old.words self.old.lengths }
    {
        for _ in 0..pairs / 20 {
            self.twenty_arrive();
            self.twenty_depart();
        }
    }

    // A packet for each leaf.
    pub fn stock(&mut self)
        requires { Reached self.old.words self.old.lengths }
        ensures { Reached self.new.words self.new.lengths }
    {
        for leaf in 0..self.leaves {
            self.arrive(self.above as u32 + 1 + leaf as u32, 0);
        }
    }

    // After each departure a packet arrives for the same leaf: where each had two, each always has some,
    // where each had one, each is emptied and filled again.
    pub fn refill(&mut self, pairs: u32)
        requires { Reached self.old.words self.old.lengths }
    {
        for _ in 0..pairs {
            self.depart();
            self.arrive(self.class, 0);
        }
    }

    // Packets of 9,000 bytes for the first leaf, each of which leaves before the next comes, until one is refused.
    pub fn fill(&mut self, pairs: u32)
        requires { Reached self.old.words self.old.lengths }
        ensures { Reached self.new.words self.new.lengths }
    {
        for _ in 0..pairs {
            if self.offer(9000).is_some() {
                break;
            }
            self.depart();
        }
    }
}

// A linear congruential generator.
fn next(seed: u32) -> u32 {
    ((seed as u64 * 1664525 + 1013904223) % 4294967296) as u32
}
