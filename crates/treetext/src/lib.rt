// The text of a tree, as docs/FORMS.md sets it down: which tree a text is, or which of its lines is wrong.

#![tactic(auto)]

ghost use Rattle.std.specs.Prelude.{◌≡◌, ◌+◌, ◌^◌, ◌≤◌, ◌<◌};
ghost use Rattle.treetext.specs.Entries.{entry_of, entry_in, class_in, curve_in, front_loaded_in, delayed_in, labelled, ended, both, error_of};
ghost use Rattle.treetext.specs.Texts.{tree_in, with_class};

use curve::Curve;
use print::Wrong;
use tree::{Class, MOST_CLASSES, Tree};
use wording::{NumberError, behind, is, line_end, number, only, uncomment, word};

// What a line says: that a tree comes, or a class of it.
#[derive(Clone, Copy)]
pub enum Entry {
    Head,
    ClassOf { number: u32, class: Class },
}

// Why a line says nothing of a tree: a number is past 32 bits, or the form is wrong.
// Stays: no `LineError` of `calls`: each has the word for what its line is not, as `Wrong` of `print` has both.
#[derive(Clone, Copy, PartialEq, Eq)]
pub enum EntryError {
    TooLarge,
    NotAClass,
}

// What is wrong with a line, and that line's number from 1.
#[derive(Clone, Copy)]
pub struct Fault {
    pub line: u64,
    pub wrong: Wrong,
}

// Stays: `headed` goes with no value: the tree is there before the line `tree`, with no class, and the definitions of a draft add to it.
// A text, as far as it was read: the lines so far, whether `tree` was among them, the first wrong one, and the classes.
#[derive(Clone, Copy)]
pub struct Draft {
    pub lines: u64,
    pub headed: bool,
    pub fault: Option<Fault>,
    pub tree: Tree,
}

impl From<NumberError> for EntryError {
    ghost from_gives = { λ number entry. entry ≡ error_of number };

    fn from(error: NumberError) -> EntryError {
        match error {
            NumberError::TooLarge => EntryError::TooLarge,
            NumberError::NotANumber => EntryError::NotAClass,
        }
    }
}

// What a line says, without the end of line.
#[tactic(auto, unfolding(crate::specs::Entries::entry_of))]
pub fn parse(line: &[u8]) -> Result<Option<Entry>, EntryError>
    ensures { result ≡ entry_of line.now }
{
    entry_in(uncomment(line))
}

// `tree` is alone.
// Stays: no `match` with byte strings for patterns (`call_in` of `calls`).
#[tactic(auto, using(crate::proofs::Named::entry_by), unfolding(crate::specs::Entries::head_in))]
fn entry_in(text: &[u8]) -> Result<Option<Entry>, EntryError>
    ensures { result ≡ entry_in text.now }
{
    let name = word(text);
    if name.is_empty() {
        Ok(None)
    } else if is(name, b"tree") {
        Ok(Some(ended(Entry::Head, behind(text))?))
    } else if is(name, b"class") {
        class_in(behind(text))
    } else {
        Err(EntryError::NotAClass)
    }
}

// A class, after its name.
#[tactic(auto, unfolding(crate::specs::Entries::class_in, crate::specs::Entries::class_of))]
fn class_in(text: &[u8]) -> Result<Option<Entry>, EntryError>
    ensures { result ≡ class_in text.now }
{
    let second = behind(text);
    let third = behind(behind(second));
    let number = number(word(text));
    let parent = labelled(second, b"parent");
    let share = labelled(third, b"share");
    let curve = curve_in(behind(behind(third)));
    let ((number, parent), (share, curve)) = both(both(number, parent), both(share, curve))?;
    Ok(Some(Entry::ClassOf {
        number,
        class: Class {
            parent,
            share,
            curve,
        },
    }))
}

// The number after that word.
#[tactic(auto, unfolding(crate::specs::Entries::labelled))]
fn labelled(text: &[u8], name: &[u8]) -> Result<u32, NumberError>
    ensures { result ≡ labelled text.now name.now }
{
    if !is(word(text), name) {
        return Err(NumberError::NotANumber);
    }
    number(word(behind(text)))
}

// The curve that ends a line.
// Stays: no `match` with byte strings for patterns (`call_in` of `calls`).
#[tactic(auto, unfolding(crate::specs::Entries::curve_in, crate::specs::Entries::none_in, crate::specs::Entries::straight_in))]
fn curve_in(text: &[u8]) -> Result<Curve, NumberError>
    ensures { result ≡ curve_in text.now }
{
    let kind = word(text);
    let rest = behind(text);
    if is(kind, b"none") {
        ended(Curve::None, rest)
    } else if is(kind, b"straight") {
        Ok(Curve::Straight { rate: only(rest)? })
    } else if is(kind, b"front-loaded") {
        front_loaded_in(rest)
    } else if is(kind, b"delayed") {
        delayed_in(rest)
    } else {
        Err(NumberError::NotANumber)
    }
}

#[tactic(auto, unfolding(crate::specs::Entries::front_loaded_in))]
fn front_loaded_in(rest: &[u8]) -> Result<Curve, NumberError>
    ensures { result ≡ front_loaded_in rest.now }
{
    let second = behind(rest);
    let first = number(word(rest));
    let bend = number(word(second));
    let last = only(behind(second));
    let (first, (bend, last)) = both(first, both(bend, last))?;
    Ok(Curve::FrontLoaded { first, bend, last })
}

#[tactic(auto, unfolding(crate::specs::Entries::delayed_in))]
fn delayed_in(rest: &[u8]) -> Result<Curve, NumberError>
    ensures { result ≡ delayed_in rest.now }
{
    let (bend, rate) = both(number(word(rest)), only(behind(rest)))?;
    Ok(Curve::Delayed { bend, rate })
}

// What is said, where nothing more stands in the line.
fn ended<T: Copy>(said: T, rest: &[u8]) -> Result<T, NumberError>
    ensures { result ≡ ended said rest.now }
{
    if !word(rest).is_empty() {
        return Err(NumberError::NotANumber);
    }
    Ok(said)
}

// Two parts of a line, or the worse of what is wrong with them: the form is judged before the sizes.
fn both<T: Copy, U: Copy>(
    one: Result<T, NumberError>,
    other: Result<U, NumberError>,
) -> Result<(T, U), NumberError>
    ensures { result ≡ both one other }
{
    match (one, other) {
        (Ok(one), Ok(other)) => Ok((one, other)),
        (Err(one), Err(other)) => Err(one.max(other)),
        (Err(why), _) | (_, Err(why)) => Err(why),
    }
}

// The tree that a text is, or the first line of it that is wrong.
#[tactic(auto, using(crate::proofs::TextLines::lines_on_lem, crate::proofs::TextLines::lines_end, crate::proofs::TextLines::line_more), unfolding(crate::specs::Texts::tree_in))]
pub fn read(text: &[u8]) -> Draft
    ensures { result ≡ tree_in text.now }
{
    let mut draft = Draft::blank();
    let mut at = 0;
    // Stays: split gives a line more after a last line feed, and split_inclusive leaves the line feeds in their lines.
    while at < text.len() {
        let end = line_end(text, at);
        draft.with_line(&text[at..end]);
        at = end + 1;
    }
    draft
}

impl Draft {
    ghost use Rattle.treetext.specs.Texts.{with_line, is_done, blank_draft, faulty};

    fn blank() -> Draft
        ensures { result ≡ blank_draft }
    {
        Draft {
            lines: 0,
            headed: false,
            fault: None,
            tree: tree::empty(),
        }
    }

    // One line more. `tree` comes once, and first; then classes, in their numbers' order.
    #[tactic(auto, using(crate::proofs::Named::not_done, crate::proofs::Named::no_fault), unfolding(crate::specs::Texts::with_line))]
    fn with_line(&mut self, line: &[u8])
        requires { self.old.lines + 1 < 2 ^ 64 }
        ensures { self.new ≡ with_line self.old line.now }
    {
        if self.is_done() {
            return;
        }
        let count = self.tree.count;
        match parse(line) {
            Ok(None) => self.lines += 1,
            Ok(Some(Entry::Head)) if !self.headed => {
                self.lines += 1;
                self.headed = true;
            }
            Ok(Some(Entry::ClassOf { .. })) if !self.headed => self.faulty(Wrong::TreeFirst),
            Ok(Some(Entry::ClassOf { number, class })) if number == count => {
                self.lines += 1;
                self.tree = with_class(self.tree, class);
            }
            Ok(Some(Entry::ClassOf { .. })) => self.faulty(Wrong::NextClass { number: count }),
            Ok(Some(Entry::Head)) | Err(EntryError::NotAClass) => self.faulty(Wrong::NotAClass),
            Err(EntryError::TooLarge) => self.faulty(Wrong::TooLarge),
        }
    }

    // The next line is wrong.
    fn faulty(&mut self, wrong: Wrong)
        requires { self.old.lines + 1 < 2 ^ 64 }
        ensures { self.new ≡ faulty self.old wrong }
    {
        self.lines += 1;
        self.fault = Some(Fault {
            line: self.lines,
            wrong,
        });
    }

    #[tactic(auto, unfolding(crate::specs::Texts::is_done))]
    fn is_done(&self) -> bool
        ensures { result ≡ is_done self.now }
    {
        self.fault.is_some() || MOST_CLASSES < self.tree.count
    }
}

// A class more. One past the most is counted, so that the tree is refused, and not kept.
fn with_class(tree: Tree, class: Class) -> Tree
    requires { tree.count ≤ 64 }
    ensures { result ≡ with_class tree class }
{
    let mut grown = tree;
    if tree.count < MOST_CLASSES {
        grown.classes[tree.count as usize] = class;
    }
    grown.count += 1;
    grown
}
