// Replays one line of a calls file.
ghost use Rattle.std.specs.Prelude.{◌≡◌, ◌≤◌};
ghost use Rattle.state.specs.State.{Reached};
ghost use Rattle.print.specs.Promises.{Within, line_room};
ghost use Rattle.replay.specs.Replies.{StartReplied, ArriveReplied, DepartReplied, FirstReplied, LaterReplied, Replied, Told, Replayed, CallPrinted, before_lines};

use calls::{Call, LineError};
use print::{Answer, LINE, Wrong};
use records::Numbers;
use state::table::{Lengths, Words};
use tree::Tree;

// What a call is replied with: its answer, and what it leaves in the log.
#[derive(Clone, Copy)]
pub struct Said {
    pub answer: Answer,
    pub entry: Option<Numbers>,
}

// What is printed of a call: its answer, or what it leaves in the log.
#[derive(Clone, Copy)]
pub enum Form {
    Answers,
    Log,
}

// How far a replay has come.
// Stays: two flags with no value beside them: a line that is wrong ends a replay that was started and one that was not (`after_reply`, `Replayed`).
#[derive(Clone, Copy)]
pub struct Progress {
    // the lines so far
    pub lines: u64,
    // the bytes that the last of them is replied with
    pub printed: usize,
    pub is_started: bool,
    pub is_going: bool,
    pub form: Form,
}

// Before the first line.
pub fn before(form: Form) -> Progress
    ensures { result ≡ before_lines form }
{
    Progress {
        lines: 0,
        printed: 0,
        is_started: false,
        is_going: true,
        form,
    }
}

// Replays the next line, which is lent without its end, and puts its reply into `out`.
// Stays: both arrays are parameters, since `Replayed` is stated over them and `Reached`, which holds a history, can be no ghost field.
pub fn replay(
    tree: Tree,
    words: &mut Words,
    lengths: &mut Lengths,
    line: &[u8],
    out: &mut [u8; LINE],
    run: Progress,
) -> Progress
    requires { Reached words.old lengths.old }
    ensures right { Replayed tree words.old lengths.old line.now run out.old words.new lengths.new out.new result }
    ensures reached { Reached words.new lengths.new }
    ensures within { Within result.printed out.new × (result.printed ≤ line_room) }
{
    let reply = replied(tree, words, lengths, calls::parse(line), run.is_started);
    told(reply, out, run)
}

// What a line is replied with: nothing, what its call says, or what is wrong with the line, which ends the replay.
fn replied(
    tree: Tree,
    words: &mut Words,
    lengths: &mut Lengths,
    call: Result<Option<Call>, LineError>,
    is_started: bool,
) -> Result<Option<Said>, Wrong>
    requires { Reached words.old lengths.old }
    ensures right { Replied tree is_started words.old lengths.old call result words.new lengths.new }
    ensures reached { Reached words.new lengths.new }
{
    if is_started {
        later(words, lengths, call)
    } else {
        first(tree, words, lengths, call)
    }
}

// A line before which no call was replayed: `start` comes first.
fn first(
    tree: Tree,
    words: &mut Words,
    lengths: &mut Lengths,
    call: Result<Option<Call>, LineError>,
) -> Result<Option<Said>, Wrong>
    requires { Reached words.old lengths.old }
    ensures right { FirstReplied tree words.old lengths.old call result words.new lengths.new }
    ensures reached { Reached words.new lengths.new }
{
    match call {
        Ok(Some(Call::Start { stamp })) => Ok(Some(start(tree, words, lengths, stamp))),
        Ok(Some(Call::Arrive { .. } | Call::Depart { .. })) => Err(Wrong::StartFirst),
        Ok(None) => Ok(None),
        // Stays: no `From` of a `LineError`: it is of `calls`, and `Wrong` of `print`.
        Err(LineError::TooLarge) => Err(Wrong::TooLarge),
        Err(LineError::NotACall) => Err(Wrong::NotACall),
    }
}

// A line after `start`.
fn later(
    words: &mut Words,
    lengths: &mut Lengths,
    call: Result<Option<Call>, LineError>,
) -> Result<Option<Said>, Wrong>
    requires { Reached words.old lengths.old }
    ensures right { LaterReplied words.old lengths.old call result words.new lengths.new }
    ensures reached { Reached words.new lengths.new }
{
    match call {
        Ok(
            Some(
                Call::Arrive {
                    stamp,
                    class,
                    length,
                },
            ),
        ) => { Ok(Some(arrive(words, lengths, stamp, class, length))) }
        Ok(Some(Call::Depart { stamp })) => Ok(Some(depart(words, lengths, stamp))),
        Ok(Some(Call::Start { .. })) => Err(Wrong::StartedAlready),
        Ok(None) => Ok(None),
        Err(LineError::TooLarge) => Err(Wrong::TooLarge),
        Err(LineError::NotACall) => Err(Wrong::NotACall),
    }
}

// The three calls, each with its answer.
fn start(tree: Tree, words: &mut Words, lengths: &mut Lengths, stamp: u32) -> Said
    ensures right { StartReplied tree stamp (Ok (Some result)) words.new lengths.new }
    ensures reached { Reached words.new lengths.new }
{
    let verdict = sched::start(tree, stamp, words, lengths);
    Said {
        answer: print::start(verdict, tree.count),
        entry: None,
    }
}

fn arrive(words: &mut Words, lengths: &mut Lengths, stamp: u32, class: u32, bytes: u32) -> Said
    requires { Reached words.old lengths.old }
    ensures right { ArriveReplied words.old lengths.old stamp class bytes (Ok (Some result)) words.new lengths.new }
    ensures reached { Reached words.new lengths.new }
{
    let arrival = sched::arrive(words, lengths, stamp, class, bytes);
    Said {
        answer: print::arrival(arrival),
        entry: records::arrival(stamp, class, bytes, arrival),
    }
}

fn depart(words: &mut Words, lengths: &mut Lengths, stamp: u32) -> Said
    requires { Reached words.old lengths.old }
    ensures right { DepartReplied words.old lengths.old stamp (Ok (Some result)) words.new lengths.new }
    ensures reached { Reached words.new lengths.new }
{
    let departure = sched::depart(words, lengths, stamp);
    let entry = records::departure(stamp, departure);
    let Ok(Some(packet)) = departure else {
        return Said {
            answer: print::departure(departure),
            entry,
        };
    };
    Said {
        answer: Answer::Leaves { packet },
        entry,
    }
}

// Prints a reply. No file has 2^64 lines.
fn told(reply: Result<Option<Said>, Wrong>, out: &mut [u8; LINE], run: Progress) -> Progress
    ensures told { Told reply run out.old out.new result }
    ensures within { Within result.printed out.new × (result.printed ≤ line_room) }
{
    let lines = run.lines.wrapping_add(1);
    match reply {
        Ok(None) => Progress {
            lines,
            printed: 0,
            ..run
        },
        Ok(Some(said)) => Progress {
            lines,
            printed: put(run.form, said, out),
            is_started: true,
            ..run
        },
        Err(wrong) => {
            let fault = Answer::Faulty {
                number: lines,
                wrong,
            };
            Progress {
                lines,
                printed: print::line(fault, out),
                is_going: false,
                ..run
            }
        }
    }
}

// What a call is printed as.
fn put(form: Form, said: Said, out: &mut [u8; LINE]) -> usize
    ensures printed { CallPrinted form said.answer said.entry out.old out.new result }
    ensures within { Within result out.new × (result ≤ line_room) }
{
    match form {
        Form::Answers => print::line(said.answer, out),
        Form::Log => printlog::entry(said.entry, out),
    }
}

// A line that the program's memory does not hold: it is not a call, whatever is in it.
pub fn overlong(out: &mut [u8; LINE], run: Progress) -> Progress
    ensures told { Told (Err Wrong.NotACall) run out.old out.new result }
    ensures within { Within result.printed out.new × (result.printed ≤ line_room) }
{
    told(Err(Wrong::NotACall), out, run)
}
