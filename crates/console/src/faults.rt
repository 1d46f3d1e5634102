// How the programs show a file's name, which need be no text, and why the system could not read or write.
use std::io::Write;
use std::{fmt, io};

// The text of an error. One that is longer ends early.
const WORDS: usize = 256;

// How the system's number ends the words of an error.
const NUMBER: &[u8] = b" (os error ";

// Bytes as text. What is no text shows as marks.
#[derive(Clone, Copy)]
pub struct Lossy<'a>(pub &'a [u8]);

impl fmt::Display for Lossy<'_> {
    fn fmt<W: fmt::Write>(&self, f: &mut fmt::Formatter<W>) -> fmt::Result {
        for chunk in self.0.utf8_chunks() {
            f.write_str(chunk.valid())?;
            if !chunk.invalid().is_empty() {
                f.write_char('\u{FFFD}')?;
            }
        }
        Ok(())
    }
}

// The system's words for an error, without its number: `No such file or directory` for `No such file or directory (os error 2)`.
#[derive(Drop)]
pub struct Reason(pub io::Error);

impl fmt::Display for Reason {
    fn fmt<W: fmt::Write>(&self, f: &mut fmt::Formatter<W>) -> fmt::Result {
        let error = &self.0;
        let mut words = [0u8; WORDS];
        let mut room = &mut words[..];
        let _ = write!(room, "{error}");
        let used = WORDS.saturating_sub(room.len());
        let words = Lossy(without_number(&words[..used]));
        write!(f, "{words}")
    }
}

fn without_number(words: &[u8]) -> &[u8] {
    match words.windows(NUMBER.len()).position(|part| part == NUMBER) {
        Some(at) => &words[..at],
        None => words,
    }
}
