// Prints the lines of a judged log, and of a log's record, as docs/FORMS.md sets them down, into a buffer that is lent.

#![tactic(auto)]

ghost use Rattle.std.specs.Prelude.{◌∷◌, ◌++◌, ◌+◌, ◌≤◌};
ghost use Rattle.wording.specs.Letters.{space};
ghost use Rattle.wording.specs.Decimal.{decimal};
ghost use Rattle.print.specs.Promises.{HasRoom, Prints, Within, line_room};
ghost use Rattle.printlog.specs.Spelled.{record_word};
ghost use Rattle.printlog.specs.Lines.{with_colon, log_line_of};
ghost use Rattle.printlog.specs.Promises.{PrintsLogLine, PrintsEntry, log_line_room};

use print::Answer;
use print::put::Printer;
use records::Numbers;
use tree::Refusal;

// Room for any line.
pub const LINE: usize = 256;

// What is printed as a line of a log.
#[derive(Clone, Copy)]
pub enum LogLine {
    Accepted { records: u64 },
    Malformed { record: u64 },
    Refused { record: u64, why: Refusal },
    AnotherChoice { record: u64 },
    Ours { answer: Answer },
    Record { numbers: Numbers },
}

// The line, at the front of the buffer. The answer is where it ends.
pub fn line(line: LogLine, out: &mut [u8; LINE]) -> usize
    ensures printed { PrintsLogLine line out.old out.new result }
    ensures room { result ≤ log_line_room }
{
    let mut printer = Printer { out, at: 0 };
    whole(&mut printer, line);
    printer.at
}

// The line, by any printer that has room for it.
fn whole(printer: &mut Printer, line: LogLine)
    requires { HasRoom printer.old log_line_room }
    ensures { Prints printer.old (log_line_of line) printer.new }
{
    match line {
        LogLine::Accepted { records } => {
            printer.named(b"accepted", records);
            printer.text(b" records\n");
        }
        LogLine::Malformed { record } => {
            numbered(printer, record);
            printer.text(b" malformed\n");
        }
        LogLine::Refused { record, why } => refused(printer, record, why),
        LogLine::AnotherChoice { record } => {
            numbered(printer, record);
            printer.text(b" another choice\n");
        }
        LogLine::Ours { answer } => {
            printer.text(b"our rules: ");
            printer.line(answer);
        }
        LogLine::Record { numbers: record } => numbers(printer, record),
    }
}

// As `record 17:`.
fn numbered(printer: &mut Printer, number: u64)
    requires { HasRoom printer.old 28 }
    ensures prints { Prints printer.old (record_word ++ (space ∷ with_colon (decimal number))) printer.new }
    ensures room { printer.new.at ≤ printer.old.at + 28 }
{
    printer.named(b"record", number);
    printer.text(b":");
}

// As `record 17: refused 13`.
fn refused(printer: &mut Printer, number: u64, why: Refusal)
    requires { HasRoom printer.old log_line_room }
    ensures { Prints printer.old (log_line_of (LogLine.Refused number why)) printer.new }
{
    numbered(printer, number);
    printer.last(b" refused", tree::number(why) as u64);
}

// What a call leaves in the log, as a line at the front of the buffer, or nothing. The answer is where it ends.
pub fn entry(entry: Option<Numbers>, out: &mut [u8; print::LINE]) -> usize
    ensures printed { PrintsEntry entry out.old out.new result }
    ensures within { Within result out.new × (result ≤ line_room) }
{
    let mut printer = Printer { out, at: 0 };
    if let Some(record) = entry {
        numbers(&mut printer, record);
    }
    printer.at
}

// As `1 0 3 200`.
fn numbers(printer: &mut Printer, numbers: Numbers)
    requires { HasRoom printer.old line_room }
    ensures { Prints printer.old (log_line_of (LogLine.Record numbers)) printer.new }
{
    printer.spelled(numbers.kind as u64);
    printer.number(numbers.stamp as u64);
    printer.number(numbers.class as u64);
    printer.last(b"", numbers.length as u64);
}
