// The trees that are run. All leaves beneath the root; or all at depth 8; or with branches at every level.
use curve::Curve;
use std::array;
use tree::{Class, Tree};

// Front-loaded, delayed, none and straight in turn: together they promise about half of the link. The
// remainder changes nothing: it says how large the rate can be.
fn leaf_curve(leaf: u8, leaves: u8) -> Curve {
    let last = 32768 / (leaves as u32 + 1) % 65536;
    let first = 2 * last;
    let bend = 2000 * (leaves as u32 + 1);
    match leaf % 4 {
        0 => Curve::FrontLoaded { first, bend, last },
        1 => Curve::Delayed { bend, rate: first },
        2 => Curve::None,
        _ => Curve::Straight { rate: last },
    }
}

// The last class above the leaves in the tree with branches at every level: four beneath the root, four
// beneath each of those, and the leaves in turn beneath the sixteen.
pub const WIDE: u8 = 20;

// Stays: `above` is how many classes stand above the leaves, by which all are numbered; 20 of them branch, and fewer are a chain.
// The parent of a class above the leaves. But in the wide tree each is the parent of the next.
fn parent_above(number: u8, above: u8) -> u8 {
    if number == 0 {
        return 0;
    }
    if above != WIDE {
        return number - 1;
    }
    if number < 5 {
        return 0;
    }
    1 + (number - 5) / 4
}

fn share_above(number: u8, above: u8) -> u32 {
    if number == 0 || above != WIDE {
        return 65536;
    }
    1024 * number as u32
}

fn parent_of_leaf(leaf: u8, above: u8) -> u8 {
    if above != WIDE {
        return above;
    }
    5 + leaf % 16
}

// The classes up to `above` stand above the leaves.
fn class_at(number: u8, above: u8, leaves: u8) -> Class {
    if number <= above {
        return Class {
            parent: parent_above(number, above) as u32,
            share: share_above(number, above),
            curve: Curve::None,
        };
    }
    let leaf = number - above - 1;
    Class {
        parent: parent_of_leaf(leaf, above) as u32,
        share: 1024 + 64 * leaf as u32,
        curve: leaf_curve(leaf, leaves),
    }
}

// A tree with so many leaves.
pub fn grown(above: u8, leaves: u8) -> Tree {
    Tree {
        count: above as u32 + 1 + leaves as u32,
        classes: array::from_fn(|number| class_at(number as u8, above, leaves)),
    }
}
