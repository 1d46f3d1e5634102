// Writing a class-tree file, always big-endian. `sets old at new` is a list with the elements of `new` from place `at` on.
ghost use Rattle.std.specs.Prelude.{◌≡◌, ◌+◌, ◌*◌, ◌≤◌, length};
ghost use Rattle.std.proofs.lemmas.List.Edits.{sets};
ghost use Rattle.tree.specs.Trees.{curve_of};
ghost use Rattle.tree.specs.Rules.{RightCount, RightTree};
ghost use Rattle.file.specs.Format.{header_bytes, entry_at};
ghost use Rattle.file.specs.Writing.{word_bytes, bytes_of, curve_bytes, body_words, total_bytes, header_words, contents_words, bodies_words, Writes};

use crate::Order;
use crate::format::{MARK, VERSION, body_bytes, entry_at};
use curve::codec::Code;
use tree::{Class, Fault, Refusal, Tree};

// A word, big end first, at a place of the buffer.
fn put_word(out: &mut [u8], at: usize, word: u32)
    requires { at + 4 ≤ length out.old }
    ensures { out.new ≡ sets out.old at (word_bytes Order.Big word) }
{
    out[at..at + 4].copy_from_slice(&word.to_be_bytes());
}

// Words, one after another from a place of the buffer on.
fn put_words(out: &mut [u8], at: usize, words: &[u32])
    requires { at + 4 * length words.now ≤ length out.old }
    ensures { out.new ≡ sets out.old at (bytes_of Order.Big words.now) }
{
    for (k, word) in words.iter().enumerate() {
        put_word(out, at + 4 * k, *word);
    }
}

// The body of a class, into its own part of the buffer: parent, share, kind, and the numbers that the part has room for.
fn put_body(body: &mut [u8], class: Class)
    requires { length body.old ≡ curve_bytes class.curve }
    ensures { body.new ≡ bytes_of Order.Big (body_words class) }
{
    let code = Code::from(class.curve);
    let words = [
        class.parent,
        class.share,
        code.kind,
        code.first,
        code.second,
        code.third,
    ];
    let room = body.len() / 4;
    put_words(body, 0, &words[..room]);
}

// The bytes of the body of a class of a tree.
fn class_bytes(tree: Tree, i: u32) -> u32
    ensures { result ≡ curve_bytes (curve_of tree i) }
{
    let code = Code::from(tree::class_at(tree, i).curve);
    body_bytes(code.kind)
}

// The total bytes of a tree's file: the place after the last body.
fn total_bytes(tree: Tree) -> u32
    requires { RightCount tree }
    ensures { result ≡ total_bytes tree }
{
    let mut at = entry_at(tree.count) as u32;
    for i in 0..tree.count {
        at += class_bytes(tree, i);
    }
    at
}

// The four words of the header.
fn put_header(tree: Tree, total: u32, out: &mut [u8])
    requires total_value { total ≡ total_bytes tree }
    requires header_bytes_in_bounds { header_bytes ≤ length out.old }
    ensures { out.new ≡ sets out.old 0 (bytes_of Order.Big (header_words tree)) }
{
    put_words(out, 0, &[MARK, VERSION, tree.count, total]);
}

// The contents, after the header: offset and length of each body.
fn put_contents(tree: Tree, out: &mut [u8])
    requires right_count { RightCount tree }
    requires count_in_bounds { entry_at tree.count ≤ length out.old }
    ensures { out.new ≡ sets out.old header_bytes (bytes_of Order.Big (contents_words tree tree.count)) }
{
    let mut at = entry_at(tree.count) as u32;
    for i in 0..tree.count {
        let bytes = class_bytes(tree, i);
        put_words(out, entry_at(i), &[at, bytes]);
        at += bytes;
    }
}

// The bodies, after the contents: each is lent its own part of the buffer.
fn put_bodies(tree: Tree, out: &mut [u8])
    requires right_count { RightCount tree }
    requires tree_in_bounds { total_bytes tree ≤ length out.old }
    ensures { out.new ≡ sets out.old (entry_at tree.count) (bytes_of Order.Big (bodies_words tree tree.count)) }
{
    let mut at = entry_at(tree.count);
    for i in 0..tree.count {
        let end = at + class_bytes(tree, i) as usize;
        put_body(&mut out[at..end], tree::class_at(tree, i));
        at = end;
    }
}

// The file of a right tree, or a refusal of a buffer that is too small for it.
fn put_file(tree: Tree, out: &mut [u8]) -> Result<u32, Fault>
    requires { RightTree tree }
    ensures { Writes tree out.old result out.new }
{
    let total = total_bytes(tree);
    if out.len() < total as usize {
        return Err(Fault {
            why: Refusal::SmallBuffer,
            class: 0,
        });
    }
    put_header(tree, total, out);
    put_contents(tree, out);
    put_bodies(tree, out);
    Ok(total)
}

// Writes a tree's file to the start of a buffer: every rule of the tree is checked, and then the room.
pub fn write(tree: Tree, out: &mut [u8]) -> Result<u32, Fault>
    ensures { Writes tree out.old result out.new }
{
    tree::check(tree)?;
    put_file(tree, out)
}
