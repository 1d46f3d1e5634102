// Prints the lines of a sheet, which say why a departure would take from a leaf or not, as docs/FORMS.md sets them down, into
// a buffer that is lent.

#![tactic(auto)]

ghost use Rattle.std.specs.Prelude.{◌+◌, ◌*◌, ◌≤◌, length};
ghost use Rattle.tree.specs.Trees.{most_classes};
ghost use Rattle.reason.specs.Reasons.{numbers};
ghost use Rattle.print.specs.Lines.{further};
ghost use Rattle.print.specs.Promises.{HasRoom, Prints};
ghost use Rattle.printwhy.specs.Lines.{why_words_of, why_line_of, line_text_at, sheet_text};
ghost use Rattle.printwhy.specs.Promises.{PrintsSheet, why_line_room, reason_room, sheet_room};

use print::put::Printer;
use reason::{NUMBERS, Reason};

// Room for the lines of as many leaves as a tree has classes at most: 64 of 144 bytes.
pub const TEXT: usize = 9216;

// Stays: docs/PROMISES.md names it, with the sheet and the number of its lines.
// The first lines of a sheet, so many, at the front of the buffer. The answer is where they end.
pub fn sheet(sheet: &[u64], lines: usize, out: &mut [u8; TEXT]) -> usize
    requires { (numbers * lines ≤ length sheet.now) × (lines ≤ most_classes) }
    ensures printed { PrintsSheet sheet.now lines out.old out.new result }
    ensures room { result ≤ sheet_room }
{
    let mut printer = Printer { out, at: 0 };
    all(&mut printer, sheet, lines);
    printer.at
}

// The same, by any printer that has room for them.
fn all(printer: &mut Printer, sheet: &[u64], lines: usize)
    requires { (numbers * lines ≤ length sheet.now) × (lines ≤ most_classes) × HasRoom printer.old sheet_room }
    ensures prints { Prints printer.old (sheet_text sheet.now lines) printer.new }
    ensures room { printer.new.at ≤ printer.old.at + sheet_room }
{
    let (rows, _) = sheet.as_chunks::<NUMBERS>();
    for row in &rows[..lines] {
        put_row(printer, *row);
    }
}

// The line of five numbers: the leaf, the reason's number and its values.
fn put_row(printer: &mut Printer, row: [u64; NUMBERS])
    requires { HasRoom printer.old why_line_room }
    ensures prints { Prints printer.old (line_text_at row 0) printer.new }
    ensures room { printer.new.at ≤ printer.old.at + why_line_room }
{
    let [leaf, number, first, second, third] = row;
    line(
        printer,
        leaf,
        reason::reason_of(number, first, second, third),
    );
}

// As `leaf 4: has no real-time curve`.
fn line(printer: &mut Printer, leaf: u64, reason: Reason)
    requires { HasRoom printer.old why_line_room }
    ensures prints { Prints printer.old (why_line_of leaf reason) printer.new }
    ensures room { printer.new.at ≤ printer.old.at + why_line_room }
{
    printer.named(b"leaf", leaf);
    printer.text(b":");
    why(printer, reason);
}

// The reason, up to the end of its line.
#[tactic(auto, unfolding(print::specs::Lines::further))]
fn why(printer: &mut Printer, reason: Reason)
    requires { HasRoom printer.old reason_room }
    ensures prints { Prints printer.old (further (why_words_of reason)) printer.new }
    ensures room { printer.new.at ≤ printer.old.at + reason_room }
{
    match reason {
        Reason::NothingWaits => printer.text(b" nothing waits\n"),
        Reason::ChosenByDeadline => printer.text(b" chosen by deadline\n"),
        Reason::NoCurve => printer.text(b" has no real-time curve\n"),
        Reason::NotEligible { until } => printer.last(b" not eligible until", until),
        Reason::LaterDeadline { chosen } => {
            printer.named(b" behind leaf", chosen);
            printer.text(b" by a later deadline\n");
        }
        Reason::HigherNumber { chosen } => {
            printer.named(b" behind leaf", chosen);
            printer.text(b" by an equal deadline and a higher number\n");
        }
        Reason::ChosenByShare => printer.text(b" chosen by share\n"),
        Reason::PassedOver { class, child, time } => passed_over(printer, class, child, time),
    }
}

// As ` passed over at class 4 for child 5 with virtual time 2080`.
fn passed_over(printer: &mut Printer, class: u64, child: u64, time: u64)
    requires { HasRoom printer.old reason_room }
    ensures prints { Prints printer.old (further (why_words_of (Reason.PassedOver class child time))) printer.new }
    ensures room { printer.new.at ≤ printer.old.at + reason_room }
{
    printer.named(b" passed over at class", class);
    printer.named(b" for child", child);
    printer.last(b" with virtual time", time);
}
