// The bodies: the class that each says, and the tree of them all.
ghost use Rattle.std.specs.Prelude.{◌≡◌, ◌+◌, ◌*◌, ◌≤◌, length};
ghost use Rattle.file.specs.Format.{tree_of, header_bytes};
ghost use Rattle.file.specs.Steps.{Opened, Lying, AllPlaced, word_from, class_from};

use super::entries::{Entry, Reader};
use crate::format::body_bytes;
use curve::Curve;
use curve::codec::Code;
use tree::{Class, Tree};

impl<'a> Reader<'a> {
    // A word of the body of an entry, by its number; 0 where the body has ended before it.
    fn body_word(&self, entry: Entry, k: u32) -> u32
        requires bytes_in_bounds { entry.offset + entry.bytes ≤ length self.now.file.now }
        requires k_bound { k ≤ 5 }
        ensures { 4 * k + 4 ≤ entry.bytes → result ≡ word_from self.now.order self.now.file.now entry.offset k }
    {
        let at = 4 * k;
        if entry.bytes < at + 4 {
            return 0;
        }
        self.word(entry.offset as usize + at as usize)
    }

    // The class that the body of an entry says; no class where its kind is unknown or against the length.
    fn class_of(&self, entry: Entry) -> Class
        requires { Lying self.now.file.now entry.offset entry.bytes }
        ensures { result ≡ class_from self.now.order self.now.file.now entry.offset entry.bytes }
    {
        let code = Code {
            kind: self.body_word(entry, 2),
            first: self.body_word(entry, 3),
            second: self.body_word(entry, 4),
            third: self.body_word(entry, 5),
        };
        match Curve::try_from(code) {
            Ok(curve) if entry.bytes == body_bytes(code.kind) => Class {
                parent: self.body_word(entry, 0),
                share: self.body_word(entry, 1),
                curve,
            },
            _ => tree::no_class(),
        }
    }
}

// The tree of a file whose bodies lie in their places: the entries are walked once more, and each body is read.
pub(crate) fn tree_of(mut reader: Reader<'_>, count: u32) -> Tree
    requires first { reader.place ≡ header_bytes }
    requires opened { Opened reader.file.now (length reader.file.now) reader.order count }
    requires all_placed { AllPlaced reader.file.now }
    ensures { result ≡ tree_of reader.entry.file.now }
{
    let mut tree = tree::empty();
    tree.count = count;
    for class in 0..count {
        let entry = reader.next_entry();
        tree.classes[class as usize] = reader.class_of(entry);
    }
    tree
}
