// The text of a log, scanned byte by byte, as docs/FORMS.md sets it down.

#![tactic(auto)]

ghost use Rattle.std.specs.Prelude.{◌≡◌};
ghost use Rattle.logtext.specs.Scans.{kind_of, shown, longer};
ghost use Rattle.wording.specs.Numbers.{narrowed};

use wording::{capped, is_blank, narrow};

// Where in the text a scan is: between two numbers, in one whose digits so far make a value, or in a comment.
#[derive(Clone, Copy)]
pub enum Place {
    Between,
    Number { value: u64 },
    Comment,
}

// How far a scan has come: its line, counted from 1, and the place in it.
#[derive(Clone, Copy)]
pub struct Scan {
    pub line: u64,
    pub place: Place,
}

// A word that is no number of 32 bits.
#[derive(Clone, Copy, PartialEq, Eq)]
pub struct NotANumber;

// A kind of byte: a digit, white space, the end of a line, what starts a comment, and what no number has.
#[derive(Clone, Copy)]
enum Kind {
    Digit(u8),
    Blank,
    LineEnd,
    Hash,
    Other,
}

impl Scan {
    ghost use Rattle.logtext.specs.Scans.{seen_at, before_text, stepped};

    // The scan of a text of which nothing was seen yet.
    pub fn before() -> Scan
        ensures { result ≡ before_text }
    {
        Scan {
            line: 1,
            place: Place::Between,
        }
    }

    // What the next byte shows: nothing yet, or a number that ends before it.
    #[tactic(auto, unfolding(crate::specs::Scans::seen_at))]
    pub fn see(self, b: u8) -> Result<Option<u32>, NotANumber>
        ensures { result ≡ seen_at self b }
    {
        match (self.place, told(b)) {
            (Place::Comment, _) => Ok(None),
            (_, Kind::Other) => Err(NotANumber),
            (Place::Number { value }, Kind::Blank | Kind::LineEnd | Kind::Hash) => ended(value),
            _ => Ok(None),
        }
    }

    // The scan after the next byte. No text has 2^64 lines.
    #[tactic(auto, using(crate::proofs::Steps::leads, crate::proofs::Steps::ends_by), unfolding(crate::specs::Scans::next_line))]
    pub fn step(self, b: u8) -> Scan
        ensures { result ≡ stepped self b }
    {
        match (self.place, told(b)) {
            (_, Kind::LineEnd) => Scan {
                line: self.line.wrapping_add(1),
                place: Place::Between,
            },
            (Place::Comment, _) | (_, Kind::Hash) => Scan {
                place: Place::Comment,
                ..self
            },
            (Place::Number { value }, Kind::Digit(digit)) => Scan {
                place: Place::Number {
                    value: lengthen(value, digit),
                },
                ..self
            },
            (Place::Between, Kind::Digit(digit)) => Scan {
                place: Place::Number {
                    value: lengthen(0, digit),
                },
                ..self
            },
            _ => Scan {
                place: Place::Between,
                ..self
            },
        }
    }
}

// Which kind a byte is; a digit with its worth.
#[tactic(auto, unfolding(crate::specs::Scans::kind_of))]
fn told(b: u8) -> Kind
    ensures { result ≡ kind_of b }
{
    match b {
        b'\n' => Kind::LineEnd,
        b'#' => Kind::Hash,
        _ if is_blank(b) => Kind::Blank,
        b'0'..=b'9' => Kind::Digit(b - b'0'),
        _ => Kind::Other,
    }
}

// The number that digits have made, or a word that is none.
fn ended(value: u64) -> Result<Option<u32>, NotANumber>
    ensures { result ≡ shown (narrowed value) }
{
    narrow(value).map(Some).map_err(|_| NotANumber)
}

// A number with one digit more. 2^32 stands for every number past 32 bits, so that digits without end do not wrap.
#[tactic(auto, unfolding(crate::specs::Scans::longer))]
fn lengthen(value: u64, digit: u8) -> u64
    ensures { result ≡ longer value digit }
{
    capped(value.saturating_mul(10).saturating_add(u64::from(digit)))
}
