// The trees that are run.
use curve::Curve;
use tree::{Class, Tree};

// The tree with one class more, while there is room.
pub fn with(tree: Tree, parent: u32, share: u32, curve: Curve) -> Tree {
    let mut next = tree;
    if let Some(class) = next.classes.get_mut(tree.count as usize) {
        *class = Class {
            parent,
            share,
            curve,
        };
        next.count += 1;
    }
    next
}

// The tree with another count.
pub fn counted(tree: Tree, count: u32) -> Tree {
    Tree { count, ..tree }
}

// A root alone.
pub fn root() -> Tree {
    with(tree::empty(), 0, 65536, Curve::None)
}

// A root with two leaves, of these shares and curves.
pub fn pair(share: u32, curve: Curve, other_share: u32, other: Curve) -> Tree {
    with(with(root(), 0, share, curve), 0, other_share, other)
}

// Document 01's example tree.
pub fn tree_a() -> Tree {
    pair(
        16384,
        Curve::FrontLoaded {
            first: 32768,
            bend: 2000,
            last: 16384,
        },
        49152,
        Curve::Delayed {
            bend: 2000,
            rate: 32768,
        },
    )
}

// So many classes, each but the root the child of the one before.
fn chain(count: u32) -> Tree {
    let mut tree = root();
    for i in 1..count {
        tree = with(tree, i - 1, 32768, Curve::None);
    }
    tree
}

// Leaves 8 and 9 at depth 8 beneath class 7, and leaf 10 beside class 1.
pub fn deep() -> Tree {
    let eight = with(chain(8), 7, 49152, Curve::None);
    with(with(eight, 7, 16384, Curve::None), 0, 32768, Curve::None)
}

// A class of depth 9.
pub fn too_deep() -> Tree {
    chain(10)
}

// Three leaves with no curve.
pub fn bare() -> Tree {
    with(
        pair(65536, Curve::None, 16384, Curve::None),
        0,
        32768,
        Curve::None,
    )
}
