// Prints: the line of an answer and the text of a tree, as docs/FORMS.md sets them down, into a buffer that is lent.

#![tactic(auto)]

ghost use Rattle.std.specs.Prelude.{◌≡◌, ◌≤◌};
ghost use Rattle.print.specs.Lines.{fault_answer, start_answer, arrival_answer, departure_answer};
ghost use Rattle.print.specs.Promises.{PrintsLine, PrintsTree, PrintsNumber, line_room};

use put::Printer;
use rules::Packet;
use tree::{Class, Fault, Refusal, Tree};

pub mod put;

// Room for any line, for a space and a number, and for the text of any tree: 65 lines.
pub const LINE: usize = 192;

pub const NUMBER: usize = 21;

pub const TEXT: usize = 12480;

// What is wrong with a line of a calls file, of a tree's text or of a log.
#[derive(Clone, Copy, PartialEq, Eq)]
pub enum Wrong {
    NotACall,
    NotAClass,
    NotANumber,
    TooLarge,
    StartFirst,
    StartedAlready,
    TreeFirst,
    NextClass { number: u32 },
}

// What is printed as a line.
#[derive(Clone, Copy, PartialEq, Eq)]
pub enum Answer {
    Started { count: u32 },
    TreeRefused { why: Refusal, class: u32 },
    Accepted { number: u64 },
    Refused { why: Refusal },
    Leaves { packet: Packet },
    NoneWaits,
    TreeHead,
    ClassOf { number: u32, class: Class },
    Faulty { number: u64, wrong: Wrong },
}

impl From<Fault> for Answer {
    ghost from_gives = { λ fault answer. answer ≡ fault_answer fault };

    fn from(fault: Fault) -> Answer {
        let Fault { why, class } = fault;
        Answer::TreeRefused { why, class }
    }
}

// The line of an answer, at the front of the buffer. The answer is where it ends.
pub fn line(answer: Answer, out: &mut [u8; LINE]) -> usize
    ensures printed { PrintsLine answer out.old out.new result }
    ensures room { result ≤ line_room }
{
    let mut printer = Printer { out, at: 0 };
    printer.line(answer);
    printer.at
}

// The text of a tree, likewise.
pub fn text(tree: Tree, out: &mut [u8; TEXT]) -> usize
    ensures { PrintsTree tree out.old out.new result }
{
    let mut printer = Printer { out, at: 0 };
    printer.tree(tree);
    printer.at
}

// A space and a number, likewise.
pub fn number(n: u64, out: &mut [u8; NUMBER]) -> usize
    ensures { PrintsNumber n out.old out.new result }
{
    let mut printer = Printer { out, at: 0 };
    printer.number(n);
    printer.at
}

// The answer that a start with a tree of so many classes is printed as.
pub fn start(verdict: Result<(), Fault>, count: u32) -> Answer
    ensures { result ≡ start_answer verdict count }
{
    match verdict {
        Ok(()) => Answer::Started { count },
        Err(fault) => Answer::from(fault),
    }
}

pub fn arrival(arrival: Result<u64, Refusal>) -> Answer
    ensures { result ≡ arrival_answer arrival }
{
    match arrival {
        Ok(number) => Answer::Accepted { number },
        Err(why) => Answer::Refused { why },
    }
}

pub fn departure(departure: Result<Option<Packet>, Refusal>) -> Answer
    ensures { result ≡ departure_answer departure }
{
    match departure {
        Ok(Some(packet)) => Answer::Leaves { packet },
        Ok(None) => Answer::NoneWaits,
        Err(why) => Answer::Refused { why },
    }
}
