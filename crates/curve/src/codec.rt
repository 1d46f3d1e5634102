// A curve's kind and its numbers, by the table of kinds, and back.
ghost use Rattle.curve.specs.Promises.{Encodes, Converts, Decodes};

use crate::Curve;

// How many kinds there are: they are numbered from 0.
pub const KINDS: u32 = 4;

// A kind and its numbers in the table's order, 0 where the kind has fewer.
// Stays: a kind is a number here, as files and the words of hosts in C have it; `Curve` is the enum, and `try_from` makes it.
#[derive(Clone, Copy, PartialEq, Eq)]
pub struct Code {
    pub kind: u32,
    pub first: u32,
    pub second: u32,
    pub third: u32,
}

// The table has no such kind.
#[derive(Clone, Copy, PartialEq, Eq)]
pub struct UnknownKind;

impl From<Curve> for Code {
    ghost from_gives = { Encodes };

    // The kind and the numbers of a curve.
    #[tactic(auto, unfolding(crate::specs::Codec::code_of))]
    fn from(curve: Curve) -> Code {
        let (kind, first, second, third) = match curve {
            Curve::None => (0, 0, 0, 0),
            Curve::Straight { rate } => (1, rate, 0, 0),
            Curve::FrontLoaded { first, bend, last } => (2, first, bend, last),
            Curve::Delayed { bend, rate } => (3, bend, rate, 0),
        };
        Code {
            kind,
            first,
            second,
            third,
        }
    }
}

impl TryFrom<Code> for Curve {
    type Error = UnknownKind;

    ghost try_from_gives = { Converts };

    // The curve of a kind with its numbers; a kind that has fewer leaves the others unread.
    #[tactic(auto, unfolding(crate::specs::Codec::kind_curve))]
    fn try_from(code: Code) -> Result<Curve, UnknownKind> {
        match code.kind {
            0 => Ok(Curve::None),
            1 => Ok(Curve::Straight { rate: code.first }),
            2 => Ok(Curve::FrontLoaded {
                first: code.first,
                bend: code.second,
                last: code.third,
            }),
            3 => Ok(Curve::Delayed {
                bend: code.first,
                rate: code.second,
            }),
            _ => Err(UnknownKind),
        }
    }
}

// The kind and the numbers of a curve.
pub fn encode(curve: Curve) -> Code
    ensures { Encodes curve result }
{
    Code::from(curve)
}

// The curve of a kind with its numbers; none where the kind is unknown.
// Stays: it could not fail, and answers for an unknown kind too (`Decodes`); `try_from` stands beside it and names an error.
pub fn decode(kind: u32, first: u32, second: u32, third: u32) -> Curve
    ensures { Decodes kind first second third result }
{
    let code = Code {
        kind,
        first,
        second,
        third,
    };
    Curve::try_from(code).unwrap_or(Curve::None)
}
