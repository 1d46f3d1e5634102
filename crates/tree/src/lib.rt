// Class trees: the classes, the refusals, and the rules that a tree is held to. A tree is its count and
// the classes numbered below it; nothing else held with it counts.

#![tactic(auto)]

ghost use Rattle.std.specs.Prelude.{◌≡◌};
ghost use Rattle.tree.specs.Numbers.{number_of};
ghost use Rattle.tree.specs.Rules.{ShapeJudged, Judged};
ghost use Rattle.tree.specs.Verdicts.{refused};
ghost use Rattle.tree.specs.Trees.{class_at, empty_tree, no_class};

use curve::Curve;

mod checks;

// The most classes, root included: as many as the curves that are tested together.
pub const CLASSES: usize = curve::fit::CURVES;

// The same as a count.
pub const MOST_CLASSES: u32 = CLASSES as u32;

// How deep a class may lie; the root is at 0.
pub const DEEPEST: u32 = 8;

// A class: the number of its parent, its share, and its real-time curve.
#[derive(Clone, Copy, PartialEq, Eq)]
pub struct Class {
    pub parent: u32,
    pub share: u32,
    pub curve: Curve,
}

// A tree by value. Class 0 is the root.
#[derive(Clone, Copy)]
pub struct Tree {
    pub count: u32,
    pub classes: [Class; CLASSES],
}

// What is refused, one for each number of document 01's table, in its order.
#[derive(Clone, Copy, PartialEq, Eq)]
pub enum Refusal {
    ShortFile,
    NoMark,
    OtherVersion,
    WrongCount,
    WrongTotal,
    WrongPlace,
    WrongBody,
    TooDeep,
    CurveAboveChildren,
    CurvesDontFit,
    NoSuchLeaf,
    WrongLength,
    LeafFull,
    StampTooFar,
    ClockFull,
    BytesFull,
    SmallBuffer,
}

// Why a tree or a file is refused: the first rule that it breaks, and the lowest class at fault.
#[derive(Clone, Copy, PartialEq, Eq)]
pub struct Fault {
    pub why: Refusal,
    pub class: u32,
}

// A refusal's number in document 01's table.
// Stays: hosts in C know refusals by number (`hfsc.h`, `number_of`); with numbers beside the variants the must-fail edit `number_of_another` would be no program, since no two variants have one number.
pub fn number(refusal: Refusal) -> u32
    ensures { result ≡ number_of refusal }
{
    match refusal {
        Refusal::ShortFile => 1,
        Refusal::NoMark => 2,
        Refusal::OtherVersion => 3,
        Refusal::WrongCount => 4,
        Refusal::WrongTotal => 5,
        Refusal::WrongPlace => 6,
        Refusal::WrongBody => 7,
        Refusal::TooDeep => 8,
        Refusal::CurveAboveChildren => 9,
        Refusal::CurvesDontFit => 10,
        Refusal::NoSuchLeaf => 11,
        Refusal::WrongLength => 12,
        Refusal::LeafFull => 13,
        Refusal::StampTooFar => 14,
        Refusal::ClockFull => 15,
        Refusal::BytesFull => 16,
        Refusal::SmallBuffer => 17,
    }
}

// What stands where no class is.
pub fn no_class() -> Class
    ensures { result ≡ no_class }
{
    Class {
        parent: 0,
        share: 0,
        curve: Curve::None,
    }
}

// A tree of no classes: what every refusal yields.
pub fn empty() -> Tree
    ensures { result ≡ empty_tree }
{
    Tree {
        count: 0,
        classes: [no_class(); CLASSES],
    }
}

// The class that stands at a number. What stands at or above the count does not count.
pub fn class_at(tree: Tree, number: u32) -> Class
    ensures { result ≡ class_at tree number }
{
    if MOST_CLASSES <= number {
        return no_class();
    }
    tree.classes[number as usize]
}

// The verdict of a tree by its shape alone, the rules 4, 7, 8 and 9: each rule over all classes before
// the next, and the lowest class at fault.
pub fn shape(tree: Tree) -> Result<(), Fault>
    ensures { ShapeJudged tree result }
{
    if tree.count < 2 || MOST_CLASSES < tree.count {
        return refused(Refusal::WrongCount, 0);
    }
    if let Some(class) = checks::wrong_body(tree) {
        return refused(Refusal::WrongBody, class);
    }
    if let Some(class) = checks::too_deep(tree) {
        return refused(Refusal::TooDeep, class);
    }
    if let Some(class) = checks::curve_above_children(tree) {
        return refused(Refusal::CurveAboveChildren, class);
    }
    Ok(())
}

// The verdict of a tree: its shape, and then rule 10, whether its curves fit.
pub fn check(tree: Tree) -> Result<(), Fault>
    ensures { Judged tree result }
{
    shape(tree)?;
    if curve::fit::fits(checks::curves_of(tree)) {
        Ok(())
    } else {
        refused(Refusal::CurvesDontFit, 0)
    }
}

fn refused(why: Refusal, class: u32) -> Result<(), Fault>
    ensures { result ≡ refused why class }
{
    Err(Fault { why, class })
}
