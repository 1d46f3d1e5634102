// The records of a log, four numbers each: what they say, and the record that a call leaves in the log of its run.

#![tactic(auto)]

ghost use Rattle.std.specs.Prelude.{◌≡◌};
ghost use Rattle.records.specs.Records.{record_of, arrival_entry, departure_entry};

use rules::Packet;
use tree::Refusal;

// The kinds of a record.
// Stays: a log is a list of numbers, in files and from hosts in C; `Record` is what they say.
pub const ARRIVAL: u32 = 1;

pub const DEPARTURE: u32 = 2;

pub const FOUND_EMPTY: u32 = 3;

// Stays: malformed is one of the things that a record is judged as (`RecordReplayed`): `judge::replay` takes it and answers, and a `Result` would only move its arm there.
// What four numbers say.
#[derive(Clone, Copy, PartialEq, Eq)]
pub enum Record {
    Arrived { stamp: u32, class: u32, length: u32 },
    Departed { stamp: u32, class: u32, length: u32 },
    FoundEmpty { stamp: u32 },
    Malformed,
}

// The four numbers of a record: what a call leaves in the log, where it is not refused.
#[derive(Clone, Copy, PartialEq, Eq)]
pub struct Numbers {
    pub kind: u32,
    pub stamp: u32,
    pub class: u32,
    pub length: u32,
}

// Stays: docs/PROMISES.md names it with the four numbers.
pub fn record_of(kind: u32, stamp: u32, class: u32, length: u32) -> Record
    ensures { result ≡ record_of kind stamp class length }
{
    match (kind, class, length) {
        (ARRIVAL, _, _) => Record::Arrived {
            stamp,
            class,
            length,
        },
        (DEPARTURE, _, _) => Record::Departed {
            stamp,
            class,
            length,
        },
        (FOUND_EMPTY, 0, 0) => Record::FoundEmpty { stamp },
        _ => Record::Malformed,
    }
}

// What an arrival with that answer leaves in the log.
pub fn arrival(stamp: u32, class: u32, length: u32, answer: Result<u64, Refusal>) -> Option<Numbers>
    ensures { result ≡ arrival_entry stamp class length answer }
{
    let Ok(_) = answer else {
        return None;
    };
    Some(Numbers {
        kind: ARRIVAL,
        stamp,
        class,
        length,
    })
}

// What a departure with that answer leaves in the log.
pub fn departure(stamp: u32, answer: Result<Option<Packet>, Refusal>) -> Option<Numbers>
    ensures { result ≡ departure_entry stamp answer }
{
    match answer {
        Ok(Some(packet)) => Some(Numbers {
            kind: DEPARTURE,
            stamp,
            class: packet.class,
            length: packet.length,
        }),
        Ok(None) => Some(Numbers {
            kind: FOUND_EMPTY,
            stamp,
            class: 0,
            length: 0,
        }),
        Err(_) => None,
    }
}
