// Document 01's smallest file, sent in bursts.
use crate::asking::Reader;
use std::io;

// "The smallest straight tree in full".
pub const FILE: [u8; 60] = [
    1, 2, 3, 4, 0, 0, 0, 1, 0, 0, 0, 2, 0, 0, 0, 60, 0, 0, 0, 32, 0, 0, 0, 12, 0, 0, 0, 44, 0, 0,
    0, 16, 0, 0, 0, 0, 0, 1, 0, 0, 0, 0, 0, 0, 0, 0, 0, 0, 0, 1, 0, 0, 0, 0, 0, 1, 0, 1, 0, 0,
];

pub fn run(reader: &mut Reader<impl Print + Eprint>) -> io::Result<()> {
    in_parts(reader)?;
    after_the_end(reader)?;
    reader.start()?;
    cut_short(reader)?;
    wrong_share(reader)
}

// Bursts of no byte, one, sixteen and the rest.
fn in_parts(reader: &mut Reader<impl Print + Eprint>) -> io::Result<()> {
    let file = FILE;
    reader.begin()?;
    reader.offer(&[], 0)?;
    reader.offer(&file[..1], 0)?;
    reader.offer(&file[1..17], 15)?;
    reader.offer(&[], 15)?;
    reader.offer(&file[17..], 57)?;
    reader.end()
}

// Bytes after the end, and the end once more.
fn after_the_end(reader: &mut Reader<impl Print + Eprint>) -> io::Result<()> {
    reader.offer(&FILE[..5], 60)?;
    reader.end()
}

// A file that ends too soon; a start tells the end too.
fn cut_short(reader: &mut Reader<impl Print + Eprint>) -> io::Result<()> {
    let file = FILE;
    reader.begin()?;
    reader.start()?;
    reader.begin()?;
    reader.offer(&file[..59], 57)?;
    reader.start()?;
    reader.offer(&file[59..], 59)
}

// The leaf has no share.
fn wrong_share(reader: &mut Reader<impl Print + Eprint>) -> io::Result<()> {
    let mut file = FILE;
    file[49] = 0;
    reader.begin()?;
    reader.offer(&file, 49)?;
    reader.end()?;
    reader.offer(&file, 60)?;
    reader.start()
}
