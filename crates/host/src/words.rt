// A tree as words: the count, then six words a class.
ghost use Rattle.std.specs.Prelude.{◌≡◌, ◌+◌, ◌*◌, ◌<◌, ◌^◌};
ghost use Rattle.host.specs.Words.{word_at, class_from, tree_said};

use curve::Curve;
use curve::codec::Code;
use state::table::CLASSES;
use std::array;
use tree::{Class, Tree};

// The word at a place; 0 past the end.
fn word(tree: &[u32], at: usize) -> u32
    ensures { result ≡ word_at tree.now at }
{
    tree.get(at).copied().unwrap_or(0)
}

// The class whose six words stand from a place on; no class where the kind is unknown.
#[tactic(auto, unfolding(crate::specs::Words::class_from))]
fn class_of(tree: &[u32], at: usize) -> Class
    requires { at + 6 < 2 ^ 64 }
    ensures { result ≡ class_from tree.now at }
{
    let code = Code {
        kind: word(tree, at + 2),
        first: word(tree, at + 3),
        second: word(tree, at + 4),
        third: word(tree, at + 5),
    };
    let Ok(curve) = Curve::try_from(code) else {
        return tree::no_class();
    };
    Class {
        parent: word(tree, at),
        share: word(tree, at + 1),
        curve,
    }
}

// The tree that the words say.
pub(crate) fn tree_of(words: &[u32]) -> Tree
    ensures { result ≡ tree_said words.now }
{
    Tree {
        count: word(words, 0),
        classes: array::from_fn(
            |i|
                requires { i < CLASSES }
                ensures { result ≡ class_from words.entry.now (1 + 6 * i) }
            { class_of(words, 1 + 6 * i) },
        ),
    }
}
