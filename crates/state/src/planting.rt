// A started state: every cell of the two arrays, whatever they held.
ghost use Rattle.std.specs.Prelude.{◌≡◌, ◌≤◌, ◌<◌};
ghost use Rattle.state.specs.Table as table;
ghost use Rattle.state.specs.Planting.{AllZero, with_code, with_class, PlantedBelow, OnlyHeader, Linked, Linkable};

use crate::leaf::put_times;
use crate::table::{
    CELLS, CHILD, FIRST, KIND, Lengths, NEVER, PARENT, PLACES, SECOND, SHARE, SIBLING, THIRD,
    Words, get, put,
};
use curve::codec::Code;
use tree::{Class, Tree};

// Stays: two lines that say what is cleared; one function over the length and the type would take the blank cell, and say less.
pub fn clear_words(words: &mut Words)
    ensures { AllZero words.new table.CELLS }
{
    *words = [0u64; CELLS];
}

pub fn clear_lengths(lengths: &mut Lengths)
    ensures { AllZero lengths.new table.PLACES }
{
    *lengths = [0u16; PLACES];
}

fn plant_code(words: &mut Words, class: usize, code: Code)
    requires { class < table.CLASSES }
    ensures { words.new ≡ with_code words.old class code }
{
    put(words, class, KIND, code.kind as u64);
    put(words, class, FIRST, code.first as u64);
    put(words, class, SECOND, code.second as u64);
    put(words, class, THIRD, code.third as u64);
}

// One class's columns.
fn plant_class(words: &mut Words, number: usize, class: Class)
    requires { number < table.CLASSES }
    ensures { words.new ≡ with_class words.old number class }
{
    put(words, number, PARENT, class.parent as u64);
    put(words, number, SHARE, class.share as u64);
    put_times(words, number, NEVER, 0);
    plant_code(words, number, Code::from(class.curve));
}

// The tree's classes.
pub fn plant(words: &mut Words, tree: Tree)
    requires { OnlyHeader words.old × (tree.count ≤ table.CLASSES) }
    ensures { PlantedBelow words.old words.new tree tree.count }
{
    let count = tree.count as usize;
    for i in 0..count {
        plant_class(words, i, tree.classes[i]);
    }
}

// Each class's first child and next sibling: from the last class down, each goes before its parent's
// children so far. The root names itself as its parent: the next child of its parent is its own first.
pub fn link(words: &mut Words, tree: Tree)
    requires { Linkable words.old tree }
    ensures { Linked words.old words.new tree }
{
    let count = tree.count as usize;
    for i in (1..count).rev() {
        let parent = get(words, i, PARENT) as usize;
        let next = get(words, parent, CHILD);
        put(words, i, SIBLING, next);
        put(words, parent, CHILD, i as u64);
    }
    let first = get(words, 0, CHILD);
    put(words, 0, SIBLING, first);
}
