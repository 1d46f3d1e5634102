// The class-tree file: reading it into a tree, and writing a tree into it.

#![tactic(auto)]

mod format;
pub mod reader;
pub mod writer;

// The order of the bytes in a word of a file.
#[derive(Clone, Copy, PartialEq, Eq)]
pub enum Order {
    Big,
    Little,
}
