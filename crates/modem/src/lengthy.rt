// Files longer than any right one.
ghost use Rattle.std.specs.Prelude.{◌≤◌, ◌+◌};

use crate::asking::Reader;
use crate::smallest::FILE;
use std::io;

pub fn run(reader: &mut Reader<impl Print + Eprint>) -> io::Result<()> {
    crossing(reader)?;
    long_root(reader)?;
    counting(reader)
}

// A burst that crosses the last place: its first bytes are kept.
fn crossing(reader: &mut Reader<impl Print + Eprint>) -> io::Result<()> {
    let first = [1u8; 2040];
    let mut second = [2u8; 60];
    second[11] = 3;
    reader.begin()?;
    reader.offer(&first, 2039)?;
    reader.offer(&second, 2051)?;
    reader.offer(&first, 2051)?;
    reader.end()
}

// A word of 32 bits, big-endian.
fn put(bytes: &mut [u8; 2064], at: usize, word: u32)
    requires { at + 4 ≤ 2064 }
{
    bytes[at..at + 4].copy_from_slice(&word.to_be_bytes());
}

// 64 classes with bodies of 24 bytes each, all in their places: 2,064 bytes.
fn file_of_long_root() -> [u8; 2064] {
    let mut bytes = [0u8; 2064];
    put(&mut bytes, 0, 0x01020304);
    put(&mut bytes, 4, 1);
    put(&mut bytes, 8, 64);
    put(&mut bytes, 12, 2064);
    for class in 0..64u32 {
        let at = 16 + 8 * class as usize;
        put(&mut bytes, at, 528 + 24 * class);
        put(&mut bytes, at + 4, 24);
    }
    bytes
}

// The root's body is too long. The whole file comes in one burst.
fn long_root(reader: &mut Reader<impl Print + Eprint>) -> io::Result<()> {
    reader.begin()?;
    reader.offer(&file_of_long_root(), 527)?;
    reader.end()
}

// 2^32 bytes after the smallest file: the count stops, and its total is no longer what was given.
fn counting(reader: &mut Reader<impl Print + Eprint>) -> io::Result<()> {
    let zeros = [0u8; 65536];
    reader.begin()?;
    reader.offer(&FILE, 57)?;
    for _ in 0..65536u32 {
        host::coming::hfsc_bursts_offer(&mut reader.kept, &mut reader.seen, &zeros);
    }
    reader.offer(&zeros, 57)?;
    reader.end()
}
