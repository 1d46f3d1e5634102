// Judges the log of a box: replayed over our own rules, every record has to be what they say. A log is a lent list of
// numbers, four to a record.

#![tactic(auto)]

ghost use Rattle.std.specs.Prelude.{◌≡◌, ◌+◌, ◌≤◌, length, get_or};
ghost use Rattle.records.specs.Records.{record_of};
ghost use Rattle.state.specs.State.{Reached};
ghost use Rattle.state.specs.Heads.{EveryHistory};
ghost use Rattle.judge.specs.Judging.{arrival_finding, departure_finding, empty_finding, judgement_at, refused_by, tree_refused, LogJudged};
ghost use Rattle.judge.specs.Promises.{ReplayRight, PartRight};

use records::Record;
use rules::Packet;
use state::table::{CELLS, Lengths, PLACES, Words};
use tree::{Fault, Refusal, Tree};

// What is wrong with a record. `ours` is what our rules answer, where the record has something else.
#[derive(Clone, Copy, PartialEq, Eq)]
pub enum Flaw {
    Malformed,
    Refused {
        why: Refusal,
    },
    Another {
        ours: Result<Option<Packet>, Refusal>,
    },
}

// Stays: the answers that `hfsc.h`, docs/FORMS.md and the request have one by one.
// Why a log is not accepted: the refusal of its tree, or its first wrong record, counted from 0.
#[derive(Clone, Copy, PartialEq, Eq)]
pub enum Rejection {
    TreeRefused {
        why: Refusal,
        class: u32,
    },
    Malformed {
        record: u64,
    },
    Refused {
        record: u64,
        why: Refusal,
    },
    AnotherChoice {
        record: u64,
        ours: Result<Option<Packet>, Refusal>,
    },
}

impl From<Refusal> for Flaw {
    ghost from_gives = { λ why flaw. flaw ≡ refused_by why };

    fn from(why: Refusal) -> Flaw {
        Flaw::Refused { why }
    }
}

impl From<Fault> for Rejection {
    ghost from_gives = { λ fault rejection. rejection ≡ tree_refused fault };

    fn from(fault: Fault) -> Rejection {
        let Fault { why, class } = fault;
        Rejection::TreeRefused { why, class }
    }
}

// Judges a whole log, replayed from the tree with that first stamp.
pub fn judge(tree: Tree, first: u32, log: &[u32]) -> Result<(), Rejection>
    ensures { LogJudged tree first log.now result }
{
    let mut words = [0u64; CELLS];
    let mut lengths = [0u16; PLACES];
    sched::start(tree, first, &mut words, &mut lengths)?;
    judge_part(&mut words, &mut lengths, log)
}

// Judges a part of a log from the state that the records before it have come to.
pub fn judge_part(words: &mut Words, lengths: &mut Lengths, log: &[u32]) -> Result<(), Rejection>
    requires { Reached words.old lengths.old }
    ensures right { EveryHistory words.old lengths.old (λ h. PartRight h log.now result words.new lengths.new) }
    ensures reached { Reached words.new lengths.new }
{
    let records = log.len() / 4;
    for record in 0..records {
        let finding = replay(words, lengths, record_at(log, 4 * record));
        // Stays: the edit `accepts_everything` changes the finding that is named here, and a `?` has no such place.
        if finding.is_err() {
            return name(record as u64, finding);
        }
    }
    if 4 * records < log.len() {
        return Err(Rejection::Malformed {
            record: records as u64,
        });
    }
    Ok(())
}

// The record whose four numbers start there.
fn record_at(log: &[u32], at: usize) -> Record
    requires { at + 4 ≤ length log.now }
    ensures { result ≡ record_of (get_or log.now at 0) (get_or log.now (at + 1) 0) (get_or log.now (at + 2) 0) (get_or log.now (at + 3) 0) }
{
    records::record_of(log[at], log[at + 1], log[at + 2], log[at + 3])
}

// Replays one record, and finds what it is.
pub fn replay(words: &mut Words, lengths: &mut Lengths, said: Record) -> Result<(), Flaw>
    requires { Reached words.old lengths.old }
    ensures right { EveryHistory words.old lengths.old (λ h. ReplayRight h said result words.new lengths.new) }
    ensures reached { Reached words.new lengths.new }
{
    match said {
        Record::Arrived {
            stamp,
            class,
            length,
        } => of_arrival(sched::arrive(words, lengths, stamp, class, length)),
        Record::Departed {
            stamp,
            class,
            length,
        } => of_departure(sched::depart(words, lengths, stamp), class, length),
        Record::FoundEmpty { stamp } => of_empty(sched::depart(words, lengths, stamp)),
        Record::Malformed => Err(Flaw::Malformed),
    }
}

fn of_arrival(answer: Result<u64, Refusal>) -> Result<(), Flaw>
    ensures { result ≡ arrival_finding answer }
{
    answer?;
    Ok(())
}

// A departure that, as the log has it, sent a packet of that class and length.
fn of_departure(
    answer: Result<Option<Packet>, Refusal>,
    class: u32,
    length: u32,
) -> Result<(), Flaw>
    ensures { result ≡ departure_finding class «length» answer }
{
    let Some(packet) = answer? else {
        return Err(Flaw::Another { ours: answer });
    };
    if packet.class != class || packet.length != length {
        return Err(Flaw::Another { ours: answer });
    }
    Ok(())
}

// A departure that, as the log has it, found none waiting.
fn of_empty(answer: Result<Option<Packet>, Refusal>) -> Result<(), Flaw>
    ensures { result ≡ empty_finding answer }
{
    match answer? {
        None => Ok(()),
        Some(_) => Err(Flaw::Another { ours: answer }),
    }
}

// What a log is judged as at the record with that number, which is found to be that.
pub fn name(record: u64, finding: Result<(), Flaw>) -> Result<(), Rejection>
    ensures { result ≡ judgement_at «record» finding }
{
    match finding {
        Ok(()) => Ok(()),
        Err(Flaw::Malformed) => Err(Rejection::Malformed { record }),
        Err(Flaw::Refused { why }) => Err(Rejection::Refused { record, why }),
        Err(Flaw::Another { ours }) => Err(Rejection::AnotherChoice { record, ours }),
    }
}
