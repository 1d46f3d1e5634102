// Makes its own calls of the scheduler, in memory, and prints one line: how many packets left, and two
// sums over all answers. bench/ of the repository has the same in C, which prints the same line.

#![tactic(auto)]

mod drive;
mod trees;

ghost use Rattle.std.specs.Prelude.{◌≤◌, length};
ghost use Rattle.state.specs.State.{Reached};

use drive::{Drive, Tally};
use std::io;
use std::rt::Env;

// That argument at the start of the buffer, and its length, or 0 where it is missing or too long.
fn argument(rt: &impl Env, at: usize, text: &mut [u8; 16]) -> usize
    ensures { result ≤ length text.new }
{
    rt.arg(at, text).unwrap_or(0)
}

// Whether that argument is the word.
fn is(rt: &impl Env, at: usize, word: &[u8]) -> bool {
    let mut text = [0u8; 16];
    let n = argument(rt, at, &mut text);
    &text[..n] == word
}

fn number(text: &[u8]) -> u32 {
    let mut value: u32 = 0;
    for byte in text {
        if value < 100000000 {
            value = 10 * value + (byte % 16) as u32;
        }
    }
    value
}

// That argument as a number, or 0 where it is missing.
fn number_at(rt: &impl Env, at: usize) -> u32 {
    let mut text = [0u8; 16];
    let n = argument(rt, at, &mut text);
    number(&text[..n])
}

// How many classes besides the root stand above the leaves.
fn above(rt: &impl Env) -> u8 {
    if is(rt, 1, b"deep") {
        7
    } else if is(rt, 1, b"wide") {
        trees::WIDE
    } else {
        0
    }
}

// The number of the refusal of a packet of so many bytes, or 0.
fn offered(drive: &mut Drive, length: u32) -> u32
    requires { Reached drive.old.words drive.old.lengths }
    ensures { Reached drive.new.words drive.new.lengths }
{
    drive.offer(length).map_or(0, |why| tree::number(why))
}

// At the end of all bytes: which of these lengths is refused, and with which number. 2,256 bytes are left of 2^40 after
// as many packets of 9,000 as fit, of 9,020 each: room for one of 2,236.
fn print_full(rt: &impl Print, drive: &mut Drive) -> io::Result<()>
    requires { Reached drive.old.words drive.old.lengths }
{
    let whole = offered(drive, 9000);
    let more = offered(drive, 2237);
    let fits = offered(drive, 2236);
    let byte = offered(drive, 1);
    println!(rt; "9000: {whole}, 2237: {more}, 2236: {fits}, 1: {byte}")
}

// flat|deep|wide LEAVES bursty|waiting|emptied|full CALLS SEED: flat has at most 63 leaves, deep 56, wide 43.
fn main(rt: HostRuntime) -> io::Result<()> {
    let leaves = (number_at(&rt, 2) % 64) as u8;
    let pairs = number_at(&rt, 4) / 2;
    let mut drive = Drive::new(above(&rt), leaves, number_at(&rt, 5));
    if is(&rt, 3, b"waiting") {
        drive.stock();
        drive.stock();
        drive.refill(pairs);
    } else if is(&rt, 3, b"full") {
        drive.fill(pairs);
        print_full(&rt, &mut drive)?;
    } else if is(&rt, 3, b"emptied") {
        drive.stock();
        drive.refill(pairs);
    } else {
        drive.bursts(pairs);
    }
    let Tally { left, sum, mix } = drive.tally;
    println!(rt; "left {left} sums {sum} {mix}")
}
