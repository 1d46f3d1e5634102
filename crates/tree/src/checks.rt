// The rules 7, 8, 9 and 10, one function a check. Each search goes up through the classes and stops at
// the first at fault.
ghost use Rattle.std.specs.Prelude.{◌≡◌, ◌<◌, ℕ, true, false, MatchOption};
ghost use Rattle.curve.specs.Answers.{Exactly};
ghost use Rattle.tree.specs.Rules.{RightRoot, RightOther, RightClass, RightBody, RightDepth, RightPlace, EveryClass, Found};
ghost use Rattle.tree.specs.Trees.{curve_below, curves_of, depth, has_child};

use crate::{CLASSES, Class, DEEPEST, Tree, class_at};
use curve::amounts::right;
use curve::{Curve, WHOLE};

fn right_root(class: Class) -> bool
    ensures { Exactly result (RightRoot class) }
{
    class.parent == 0 && class.share == WHOLE && class.curve == Curve::None
}

fn right_other(class: Class, number: u32) -> bool
    ensures { Exactly result (RightOther class number) }
{
    class.parent < number && (1..=WHOLE).contains(&class.share) && right(class.curve)
}

fn right_class(class: Class, number: u32) -> bool
    ensures { Exactly result (RightClass class number) }
{
    if number == 0 {
        right_root(class)
    } else {
        right_other(class, number)
    }
}

// The lowest class below the count of which the test says no.
fn lowest_fault<F: Fn(u32) -> bool>(count: u32, is_right: F) -> Option<u32>
    requires { (i : ℕ) → i < count → F.pre is_right i }
    ensures { MatchOption result ((i : ℕ) → i < count → F.post is_right i true) (λ i. (i < count) × F.post is_right i false × ((k : ℕ) → k < i → F.post is_right k true)) }
{
    for i in 0..count {
        if !is_right(i) {
            return Some(i);
        }
    }
    None
}

// Rule 7.
pub(crate) fn wrong_body(tree: Tree) -> Option<u32>
    ensures { Found (RightBody tree) tree.count result }
{
    lowest_fault(
        tree.count,
        |i|
            ensures { Exactly result (RightBody tree i) }
        { right_class(class_at(tree, i), i) },
    )
}

// The steps from a class up to the root: each goes to a lower number.
fn depth_of(tree: Tree, class: u32) -> u32
    requires every_class { EveryClass (RightBody tree) tree.count }
    requires class_lt_count { class < tree.count }
    ensures { result ≡ depth tree class }
{
    let mut steps: u32 = 0;
    let mut here = class;
    while 0 < here {
        here = class_at(tree, here).parent;
        steps += 1;
    }
    steps
}

// Rule 8.
pub(crate) fn too_deep(tree: Tree) -> Option<u32>
    requires { EveryClass (RightBody tree) tree.count }
    ensures { Found (RightDepth tree) tree.count result }
{
    lowest_fault(
        tree.count,
        |i|
            requires bodies { EveryClass (RightBody tree) tree.count }
            requires class { i < tree.count }
            ensures { Exactly result (RightDepth tree i) }
        { depth_of(tree, i) <= DEEPEST },
    )
}

// The root is nobody's child, so the search starts after it.
fn has_child(tree: Tree, class: u32) -> bool
    ensures { result ≡ has_child tree class }
{
    for i in 1..tree.count {
        if class_at(tree, i).parent == class {
            return true;
        }
    }
    false
}

fn right_place(tree: Tree, class: u32) -> bool
    ensures { Exactly result (RightPlace tree class) }
{
    !has_child(tree, class) || class_at(tree, class).curve == Curve::None
}

// Rule 9.
pub(crate) fn curve_above_children(tree: Tree) -> Option<u32>
    ensures { Found (RightPlace tree) tree.count result }
{
    lowest_fault(
        tree.count,
        |i|
            ensures { Exactly result (RightPlace tree i) }
        { right_place(tree, i) },
    )
}

fn curve_below(tree: Tree, class: u32) -> Curve
    ensures { result ≡ curve_below tree class }
{
    if tree.count <= class {
        return Curve::None;
    }
    class_at(tree, class).curve
}

// The curves that rule 10 is about.
pub(crate) fn curves_of(tree: Tree) -> [Curve; CLASSES]
    ensures { result ≡ curves_of tree }
{
    let mut curves = [Curve::None; CLASSES];
    for i in 0..CLASSES {
        curves[i] = curve_below(tree, i as u32);
    }
    curves
}
