// The text of a log, judged as it comes: byte by byte, so that it does not matter in which turns it is read.

#![tactic(auto)]

ghost use Rattle.std.specs.Prelude.{◌≡◌};
ghost use Rattle.state.specs.State.{Reached};
ghost use Rattle.state.specs.Heads.{EveryHistory};
ghost use Rattle.judgetext.specs.Texts.{before_log, is_right, holding, completed, moved, stuck, judgement_of};
ghost use Rattle.judgetext.specs.Promises.{NumberRight, ByteRight, TextRight};

use judge::{Flaw, Rejection};
use logtext::{NotANumber, Scan};
use state::table::{Lengths, Words};

// Stays: four states with one number more each, and the definitions of `Meaning` have a case for each; a list with its length would have to say which it is.
// The numbers of a record that is begun.
#[derive(Clone, Copy, PartialEq, Eq)]
pub enum Held {
    Nothing,
    Kind { kind: u32 },
    Stamp { kind: u32, stamp: u32 },
    Class { kind: u32, stamp: u32, class: u32 },
}

// Stays: a text is right, wrong in a record, or wrong in a word, and a `Result` would nest the three; `judgement` is public and answers for any finding (`standing_as`), so no narrower type stands here.
// How a text stands: right so far, a wrong record after the right ones, or a word that is no number.
#[derive(Clone, Copy, PartialEq, Eq)]
pub enum Standing {
    Right,
    Wrong { finding: Result<(), Flaw> },
    NotANumber { line: u64 },
}

// How far a text is judged: the scan of its bytes, its right records so far, and the numbers after them.
#[derive(Clone, Copy)]
pub struct Progress {
    pub scan: Scan,
    pub records: u64,
    pub held: Held,
    pub standing: Standing,
}

// Before the first byte.
pub fn before() -> Progress
    ensures { result ≡ before_log }
{
    Progress {
        scan: Scan::before(),
        records: 0,
        held: Held::Nothing,
        standing: Standing::Right,
    }
}

// Judges more of a text, up to what is wrong in it.
pub fn judge_text(words: &mut Words, lengths: &mut Lengths, at: Progress, text: &[u8]) -> Progress
    requires { Reached words.old lengths.old }
    ensures right { EveryHistory words.old lengths.old (λ h. TextRight h at text.now result words.new lengths.new) }
    ensures reached { Reached words.new lengths.new }
{
    let mut here = at;
    for byte in text {
        if !is_right(here) {
            return here;
        }
        here = read(words, lengths, here, *byte);
    }
    here
}

// Whether a text is right so far.
pub fn is_right(at: Progress) -> bool
    ensures { result ≡ is_right at.standing }
{
    matches!(at.standing, Standing::Right)
}

// What a text is judged as that ends there, where all of its words are numbers.
pub fn judgement(at: Progress) -> Result<(), Rejection>
    ensures { result ≡ judgement_of at }
{
    if let Standing::Wrong { finding } = at.standing {
        return judge::name(at.records, finding);
    }
    let Held::Nothing = at.held else {
        return Err(Rejection::Malformed { record: at.records });
    };
    Ok(())
}

// One byte more of a text that is right so far.
fn read(words: &mut Words, lengths: &mut Lengths, at: Progress, b: u8) -> Progress
    requires { Reached words.old lengths.old }
    ensures right { EveryHistory words.old lengths.old (λ h. ByteRight h at b result words.new lengths.new) }
    ensures reached { Reached words.new lengths.new }
{
    match at.scan.see(b) {
        Ok(None) => step(at, b),
        Ok(Some(n)) => take(words, lengths, step(at, b), n),
        Err(NotANumber) => stop(at),
    }
}

// One number more.
fn take(words: &mut Words, lengths: &mut Lengths, at: Progress, n: u32) -> Progress
    requires { Reached words.old lengths.old }
    ensures right { EveryHistory words.old lengths.old (λ h. NumberRight h at n result words.new lengths.new) }
    ensures reached { Reached words.new lengths.new }
{
    match at.held {
        Held::Nothing => hold(at, Held::Kind { kind: n }),
        Held::Kind { kind } => hold(at, Held::Stamp { kind, stamp: n }),
        Held::Stamp { kind, stamp } => hold(
            at,
            Held::Class {
                kind,
                stamp,
                class: n,
            },
        ),
        Held::Class { kind, stamp, class } => {
            let said = records::record_of(kind, stamp, class, n);
            complete(at, judge::replay(words, lengths, said))
        }
    }
}

// The scan goes on by a byte.
fn step(at: Progress, b: u8) -> Progress
    ensures { result ≡ moved at b }
{
    Progress {
        scan: at.scan.step(b),
        ..at
    }
}

fn hold(at: Progress, held: Held) -> Progress
    ensures { result ≡ holding at held }
{
    Progress { held, ..at }
}

// A record is complete, and found to be that. No log has 2^64 records.
fn complete(at: Progress, finding: Result<(), Flaw>) -> Progress
    ensures { result ≡ completed at finding }
{
    if finding.is_err() {
        return Progress {
            held: Held::Nothing,
            standing: Standing::Wrong { finding },
            ..at
        };
    }
    Progress {
        records: at.records.wrapping_add(1),
        held: Held::Nothing,
        standing: Standing::Right,
        ..at
    }
}

// A word that is no number, on the line that the scan has come to.
fn stop(at: Progress) -> Progress
    ensures { result ≡ stuck at at.scan.line }
{
    Progress {
        standing: Standing::NotANumber { line: at.scan.line },
        ..at
    }
}
