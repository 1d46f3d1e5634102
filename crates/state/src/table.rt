// The state's two arrays. The table of words has column f of class i at CLASSES·f + i: only `get` and
// `put` compute a place. The lengths have packet p of class i in slot p mod SLOTS: only `slot` does.
ghost use Rattle.std.specs.Prelude.{◌≡◌, ◌<◌, get_or, set};
ghost use Rattle.state.specs.Table as table;
ghost use Rattle.state.specs.Table.{at, with, header_at, with_header, slot_of};

// The most classes.
pub const CLASSES: usize = tree::CLASSES;

// The columns of a class, the header's among them.
pub const COLUMNS: usize = 24;

pub const CELLS: usize = CLASSES * COLUMNS;

pub type Words = [u64; CELLS];

// The packets that may wait in a leaf.
pub const SLOTS: usize = 64;

pub const PLACES: usize = CLASSES * SLOTS;

pub type Lengths = [u16; PLACES];
// The header's cells, in a column of their own.
const HEADER: usize = 0;

pub const CLOCK: usize = 0;

pub const STAMP: usize = 1;

pub const ACCEPTED: usize = 2;

pub const COUNT: usize = 3;
// The tree: parent, share, the code of the curve, links.
pub const PARENT: usize = 1;

pub const SHARE: usize = 2;

pub const KIND: usize = 3;

pub const FIRST: usize = 4;

pub const SECOND: usize = 5;

pub const THIRD: usize = 6;

pub const CHILD: usize = 7;

pub const SIBLING: usize = 8;
// A leaf: numbers of its packets, bytes by the real-time rule; its kept pieces, and the times of its head.
pub const NEXT_NUMBER: usize = 9;

pub const HEAD_NUMBER: usize = 10;

pub const SENT_REAL_TIME: usize = 11;

pub const STEEP_START: usize = 12;

pub const STEEP_SENT: usize = 13;

pub const FLAT_START: usize = 14;

pub const FLAT_SENT: usize = 15;

pub const ELIGIBLE: usize = 16;

pub const DEADLINE: usize = 17;
// A class among its parent's children, and as a parent.
pub const SENT: usize = 18;

pub const FAIR_START: usize = 19;

pub const FAIR_SENT: usize = 20;

pub const VIRTUAL: usize = 21;

pub const MARK: usize = 22;

pub const ACTIVE: usize = 23;
// The largest number that a cell holds.
pub const LARGEST: u64 = 18446744073709551615;

// The eligible time of a leaf that has none.
pub const NEVER: u64 = LARGEST;

// What the column has for the class.
pub fn get(words: &Words, class: usize, column: usize) -> u64
    requires { (class < table.CLASSES) × (column < table.COLUMNS) }
    ensures { result ≡ at words.now class column }
{
    let from = CLASSES * column + class;
    words[from]
}

// The table with another value there.
pub fn put(words: &mut Words, class: usize, column: usize, value: u64)
    requires { (class < table.CLASSES) × (column < table.COLUMNS) }
    ensures { words.new ≡ with words.old class column value }
{
    let to = CLASSES * column + class;
    words[to] = value;
}

// What a cell of the header has.
pub fn header(words: &Words, cell: usize) -> u64
    requires { cell < table.CLASSES }
    ensures { result ≡ header_at words.now cell }
{
    get(words, cell, HEADER)
}

pub fn put_header(words: &mut Words, cell: usize, value: u64)
    requires { cell < table.CLASSES }
    ensures { words.new ≡ with_header words.old cell value }
{
    put(words, cell, HEADER, value);
}

// Where the length of a leaf's packet lies, by its number.
fn slot(class: usize, number: u64) -> usize
    requires { class < table.CLASSES }
    ensures { result ≡ slot_of class number }
{
    SLOTS * class + (number % SLOTS as u64) as usize
}

// The length of a leaf's packet.
pub fn length_of(lengths: &Lengths, class: usize, number: u64) -> u16
    requires { class < table.CLASSES }
    ensures { result ≡ get_or lengths.now (slot_of class number) 0 }
{
    lengths[slot(class, number)]
}

// The lengths with another there: a free slot has 0.
pub fn put_length(lengths: &mut Lengths, class: usize, number: u64, length: u16)
    requires { class < table.CLASSES }
    ensures { lengths.new ≡ set lengths.old (slot_of class number) length }
{
    lengths[slot(class, number)] = length;
}
