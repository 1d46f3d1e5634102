// The contents entries, walked one after another over the lent file.
ghost use Rattle.std.specs.Prelude.{◌≡◌, ◌+◌, ◌≤◌, length};
ghost use Rattle.file.specs.Format.{word_at, order_of, header_bytes};
ghost use Rattle.file.specs.Steps.{entry_of};

use super::words::{order_of, word};
use crate::Order;
use crate::format::{ENTRY, HEADER};

// An entry of the contents: offset and length of a body.
#[derive(Clone, Copy)]
pub(crate) struct Entry {
    pub(crate) offset: u32,
    pub(crate) bytes: u32,
}

impl Entry {
    // Where the body ends.
    pub(crate) fn end(self) -> usize
        ensures { result ≡ self.offset + self.bytes }
    {
        self.offset as usize + self.bytes as usize
    }
}

// A reader: the lent file, its byte order, and the place of the next entry of the contents.
// Stays: no Iterator, since the contents are as long as the count says, which the loops have, and `next` would have to say so too.
#[derive(Clone, Copy)]
pub(crate) struct Reader<'a> {
    pub(crate) file: &'a [u8],
    pub(crate) order: Order,
    pub(crate) place: usize,
}

impl<'a> Reader<'a> {
    // A reader in the file's own order, which stands at the first entry.
    pub(crate) fn new(file: &'a [u8]) -> Reader<'a>
        requires { header_bytes ≤ length file.now }
        ensures lent { result.file.now ≡ file.now }
        ensures own { result.order ≡ order_of file.now }
        ensures first { result.place ≡ header_bytes }
    {
        Reader {
            file,
            order: order_of(file),
            place: HEADER,
        }
    }

    // The word at a place.
    pub(crate) fn word(&self, at: usize) -> u32
        requires { at + 4 ≤ length self.now.file.now }
        ensures { result ≡ word_at self.now.order self.now.file.now at }
    {
        word(self.order, self.file, at)
    }

    // The entry at the reader's place, which goes on to the next.
    pub(crate) fn next_entry(&mut self) -> Entry
        requires { self.old.place + 8 ≤ length self.old.file.now }
        ensures entry { result ≡ entry_of self.old.file.now self.old.order self.old.place }
        ensures place { self.new.place ≡ self.old.place + 8 }
        ensures order { self.new.order ≡ self.old.order }
        ensures lent { self.new.file.now ≡ self.old.file.now }
    {
        let offset = self.word(self.place);
        let bytes = self.word(self.place + 4);
        self.place += ENTRY;
        Entry { offset, bytes }
    }
}
