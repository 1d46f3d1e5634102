// What the programs write and read: lines to standard output, whole files, class-tree files of any length, and the status
// that a command ends with. No promise can say what a file or a screen then holds, so these stay small; what is written is
// `print`'s.

#![tactic(auto)]

mod faults;
mod trees;

ghost use Rattle.std.specs.Prelude.{◌≡◌, IfOk, IfSome};
ghost use Rattle.print.specs.Promises.{Within};

use faults::{Lossy, Reason};
use print::{Answer, LINE, TEXT};
use std::env::FillError;
use std::fmt::Display;
use std::io::{ErrorKind, Read, Write};
use std::rt::{Env, Files};
use std::{fs, io, str};
use tree::Tree;
pub use trees::{read_tree, tree_argument};

// Where a program says its status: descriptor 9, on which the command that runs it listens.
const STATUS: &str = "/dev/fd/9";

// The longest argument that is taken.
pub const ARGUMENT: usize = 4096;

// How many bytes a turn of reading takes, and the most of a file that is read whole.
pub const TURN: usize = 65536;

// The system's numbers of an argument that is missing, and of one that is too long.
// Stays: an `ErrorKind` in their place would be said in other words than the system's.
const MISSING: i32 = 22;

const TOO_LONG: i32 = 36;

// Why a program stops short, which has been said by then: something was refused, or could not be read or written; it was
// called wrongly. The number is the status that it ends with, which is 0 where all was done.
#[derive(Clone, Copy)]
pub enum Stop {
    Failed = 1,
    Misused = 2,
}

// Bytes as they stand. Where they can't be written, that is said.
pub fn text(rt: &(impl Print + Eprint), bytes: &[u8]) -> io::Result<()> {
    or_said(rt, rt.write_all(bytes))
}

// A line of what is displayed, likewise.
pub fn println<D: Display + Drop>(rt: &(impl Print + Eprint), shown: D) -> io::Result<()> {
    or_said(rt, rt.println(shown))
}

fn or_said(rt: &impl Eprint, written: io::Result<()>) -> io::Result<()> {
    if let Err(error) = written {
        fail(rt, b"standard output", error);
    }
    written
}

// The line of an answer.
pub fn say(rt: &(impl Print + Eprint), answer: Answer) -> io::Result<()> {
    let mut out = [0u8; LINE];
    let end = print::line(answer, &mut out);
    text(rt, &out[..end])
}

// The text of a tree.
pub fn say_tree(rt: &(impl Print + Eprint), tree: Tree) -> io::Result<()> {
    let mut out = [0u8; TEXT];
    let end = print::text(tree, &mut out);
    text(rt, &out[..end])
}

// A name, and what is wrong with it, on standard error. That this can't be written is not said anywhere.
pub fn complain(rt: &impl Eprint, name: &[u8], wrong: &[u8]) -> Stop
    ensures { result ≡ Stop.Failed }
{
    let (name, wrong) = (Lossy(name), Lossy(wrong));
    let _ = eprintln!(rt; "{name}: {wrong}");
    Stop::Failed
}

// A name, and why it could not be read or written, as the system says it.
pub fn fail(rt: &impl Eprint, name: &[u8], error: io::Error) -> Stop
    ensures { result ≡ Stop.Failed }
{
    let name = Lossy(name);
    let reason = Reason(error);
    let _ = eprintln!(rt; "{name}: {reason}");
    Stop::Failed
}

// The line of the answer that a program stops at, whether it could be written or not.
pub fn refuse(rt: &(impl Print + Eprint), answer: Answer) -> Stop
    ensures { result ≡ Stop.Failed }
{
    let _ = say(rt, answer);
    Stop::Failed
}

// The usage, on standard error.
pub fn usage(rt: &impl Eprint, line: &[u8]) -> Stop
    ensures { result ≡ Stop.Misused }
{
    let line = Lossy(line);
    let _ = eprint!(rt; "{line}");
    Stop::Misused
}

// How many arguments the program was started with, its own name among them.
pub fn arguments(rt: &impl Env) -> usize {
    for at in 0..usize::MAX {
        if matches!(rt.arg(at, &mut [0u8; 1]), Err(FillError::NotPresent)) {
            return at;
        }
    }
    usize::MAX
}

// Stays: here and below a buffer is lent, and how much of it is filled is answered, as std's `Read::read` does (no heap); docs/PROMISES.md has the clauses.
// Puts the argument at that place at the start of the buffer.
pub fn argument(rt: &impl Env, at: usize, buffer: &mut [u8]) -> io::Result<usize>
    ensures { IfOk result (λ n. Within n buffer.new) }
{
    rt.arg(at, buffer).map_err(|error| {
        io::Error::from_raw_os_error(match error {
            FillError::NotPresent => MISSING,
            FillError::TooLong => TOO_LONG,
        })
    })
}

// Puts the argument at that place at the start of the buffer: no bytes where there is none, or where it is too long.
pub fn word(rt: &impl Env, at: usize, buffer: &mut [u8]) -> usize
    ensures { Within result buffer.new }
{
    argument(rt, at, buffer).unwrap_or(0)
}

// The same of a file's name. Where there is none, that is said of `what`.
pub fn name(
    rt: &(impl Env + Eprint),
    at: usize,
    what: &[u8],
    buffer: &mut [u8],
) -> Result<usize, Stop>
    ensures { IfOk result (λ n. Within n buffer.new) }
{
    argument(rt, at, buffer).map_err(|error| fail(rt, what, error))
}

// A file's name as a path, which is text.
pub fn path(name: &[u8]) -> io::Result<&str> {
    str::from_utf8(name).map_err(|_| io::Error::from(ErrorKind::InvalidFilename))
}

// Opens the file of that name for reading.
pub fn open<R: Files>(rt: &R, name: &[u8]) -> io::Result<R::File> {
    fs::open(rt, path(name)?)
}

// Reads until the buffer is full or the file ends.
// Stays: std's `read_exact` does not say how much it has read where the file ends first, and `read_to_end` fills no array.
pub fn read_full(file: &mut impl Read, bytes: &mut [u8]) -> io::Result<usize>
    ensures { IfOk result (λ n. Within n bytes.new) }
{
    let mut done = 0;
    while done < bytes.len() {
        let n = file.read(&mut bytes[done..])?;
        if n == 0 {
            break;
        }
        done += n;
    }
    Ok(done)
}

// Reads the file of that name. What doesn't fit into the buffer is too long, as `wrong` says.
pub fn read_file(
    rt: &(impl Files + Eprint),
    name: &[u8],
    bytes: &mut [u8],
    wrong: &[u8],
) -> Result<usize, Stop>
    ensures { IfOk result (λ n. Within n bytes.new) }
{
    match read_whole(rt, name, bytes) {
        Ok(Some(n)) => Ok(n),
        Ok(None) => Err(complain(rt, name, wrong)),
        Err(error) => Err(fail(rt, name, error)),
    }
}

// Reads the file into the buffer, where it ends there.
fn read_whole(rt: &impl Files, name: &[u8], bytes: &mut [u8]) -> io::Result<Option<usize>>
    ensures { IfOk result (λ got. IfSome got (λ n. Within n bytes.new)) }
{
    let mut file = open(rt, name)?;
    let n = read_full(&mut file, bytes)?;
    Ok(ends(&mut file)?.then_some(n))
}

// Whether the file ends here.
fn ends(file: &mut impl Read) -> io::Result<bool> {
    Ok(file.read(&mut [0u8; 1])? == 0)
}

// Says the status, as the program's last act. Where nobody listens, it is not said.
pub fn end(rt: &impl Files, outcome: Result<(), Stop>) {
    let status = match outcome {
        Ok(()) => 0,
        Err(stop) => stop as u8,
    };
    let _ = say_status(rt, status);
}

fn say_status(rt: &impl Files, status: u8) -> io::Result<()> {
    let mut listener = fs::OpenOptions::new().write(true).open(rt, STATUS)?;
    write!(listener, "{status}")
}
