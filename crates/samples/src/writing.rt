// Writes the tree of a file into buffers, and prints how that ends. Every buffer is filled with one byte
// first, so that it shows which bytes were written.
use print::Answer;
use std::io;
use tree::Tree;

const FILL: u8 = 170;

// The most bytes of a tree's file that are asked for.
const MOST: usize = 4096;

// Whether the bytes from a place on are as they were.
fn is_filled(out: &[u8], from: usize) -> bool {
    out.iter().skip(from).all(|byte| *byte == FILL)
}

// Whether each word of four bytes is that of the file, turned round.
fn is_turned(out: &[u8], file: &[u8]) -> bool {
    out.chunks(4)
        .zip(file.chunks(4))
        .all(|(word, other)| word.iter().eq(other.iter().rev()))
}

// What so many written bytes are. A file that was read in the other order is written in this one.
fn compared(out: &[u8], total: usize, file: &[u8]) -> &'static str {
    if total != file.len() {
        "not as the file"
    } else if out.starts_with(file) {
        "as the file"
    } else if is_turned(out, file) {
        "as the file in the other order"
    } else {
        "not as the file"
    }
}

// Writes the tree into the first bytes of a buffer.
fn print_writing(
    rt: &(impl Print + Eprint),
    tree: Tree,
    file: &[u8],
    room: usize,
) -> io::Result<()> {
    if MOST < room {
        return Ok(());
    }
    let mut out = [FILL; MOST];
    match file::writer::write(tree, &mut out[..room]) {
        Ok(total) => {
            let order = compared(&out, total as usize, file);
            let beyond = if is_filled(&out, total as usize) {
                "none"
            } else {
                "some"
            };
            console::println(
                rt,
                format_args!("written {total}, {order}, {beyond} beyond"),
            )
        }
        Err(fault) => {
            console::say(rt, Answer::from(fault))?;
            let some = if is_filled(&out, 0) { "none" } else { "some" };
            console::println(rt, format_args!("{some} written"))
        }
    }
}

// The tree with no share for its last class.
fn spoilt(tree: Tree) -> Tree {
    let mut spoilt = tree;
    if matches!(tree.count, 2..=64) {
        spoilt.classes[tree.count as usize - 1].share = 0;
    }
    spoilt
}

// With more room than the file takes, with just so much, with a byte less; and spoilt.
pub fn print(rt: &(impl Print + Eprint), tree: Tree, file: &[u8]) -> io::Result<()> {
    let n = file.len();
    print_writing(rt, tree, file, MOST)?;
    if tree.count < 2 || n < 1 {
        return Ok(());
    }
    print_writing(rt, tree, file, n)?;
    print_writing(rt, tree, file, n - 1)?;
    print_writing(rt, spoilt(tree), file, MOST)
}
