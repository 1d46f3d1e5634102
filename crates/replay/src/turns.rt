// Reads a calls file in turns, and replays its lines.
ghost use Rattle.std.specs.Prelude.{◌≡◌, ◌+◌, ◌-◌, ◌<◌, ◌≤◌};
ghost use Rattle.console.specs.declared.TheConstants.{TURN};
ghost use Rattle.replay.specs.Text.{KeptInFront, Finished};

use crate::lines;
use crate::lines::Form;
use crate::output::Output;
use console::{Stop, TURN};
use print::LINE;
use state::table::{CELLS, PLACES};
use std::io::Read;
use tree::Tree;

// A part of the file: its text between two places is not replayed yet.
#[derive(Drop)]
struct Window {
    text: [u8; TURN],
    from: usize,
    end: usize,
    ghost ordered: { from ≤ end },
    ghost within: { end ≤ TURN },
}

impl Window {
    fn new() -> Self
        ensures { (result.from ≡ 0) × (result.end ≡ 0) }
    {
        Window {
            text: [0; TURN],
            from: 0,
            end: 0,
        }
    }

    // A line is replayed, which ends there.
    fn pass(&mut self, to: usize)
        requires { to < self.old.end }
        ensures { (self.new.text ≡ self.old.text) × (self.new.from ≡ to + 1) × (self.new.end ≡ self.old.end) }
    {
        self.from = to + 1;
    }

    // Moves what is not replayed yet to the front, and reads more into the room behind it. A last line that has no end is given one.
    // Whether there is text then.
    fn refill(&mut self, rt: &impl Eprint, file: &mut impl Read, name: &[u8]) -> Result<bool, Stop>
        requires { self.old.end - self.old.from < TURN }
        ensures { self.new.from ≡ 0 }
    {
        self.keep();
        let read = file.read(&mut self.text[self.end..]);
        let n = read.map_err(|error| console::fail(rt, name, error))?;
        self.end += n;
        if n == 0 {
            self.finish();
        }
        Ok(0 < self.end)
    }

    fn keep(&mut self)
        ensures { (self.new.from ≡ 0) × (self.new.end ≡ self.old.end - self.old.from) × KeptInFront self.old.text self.old.from self.old.end self.new.text self.new.end }
    {
        self.text.copy_within(self.from..self.end, 0);
        self.end -= self.from;
        self.from = 0;
    }

    // The end of a last line that has none.
    fn finish(&mut self)
        requires { self.old.end < TURN }
        ensures { (self.new.from ≡ self.old.from) × Finished self.old.text self.old.end self.new.text self.new.end }
    {
        if 0 < self.end {
            self.text[self.end] = b'\n';
            self.end += 1;
        }
    }
}

// Replays the calls of the open file over the tree: all, and all answers could be written, or what is wrong has been said.
// Each turn replays a line, or reads more where there is no whole one. A proved loop has to end, and nothing says that a file does:
// so the turns are counted, up to a number that no run reaches.
pub fn replay(
    rt: &(impl Print + Eprint),
    form: Form,
    tree: Tree,
    file: &mut impl Read,
    name: &[u8],
) -> Result<(), Stop> {
    let mut words = [0u64; CELLS];
    let mut lengths = [0u16; PLACES];
    let mut window = Window::new();
    let mut output = Output::new();
    let mut line = [0u8; LINE];
    let mut run = lines::before(form);
    let _ = sched::start(tree::empty(), 0, &mut words, &mut lengths);
    'turns: for _ in 0..u64::MAX {
        if !run.is_going {
            break;
        }
        let to = wording::line_end(&window.text[..window.end], window.from);
        if to < window.end {
            let call = &window.text[window.from..to];
            run = lines::replay(tree, &mut words, &mut lengths, call, &mut line, run);
            window.pass(to);
            // a line that says nothing prints nothing
            if 0 < run.printed {
                output.queue(rt, &line[..run.printed]);
            }
        } else if window.text.len() <= window.end - window.from {
            run = lines::overlong(&mut line, run);
            output.queue(rt, &line[..run.printed]);
        } else {
            output.flush(rt);
            if !window.refill(rt, file, name)? || !output.is_well {
                break;
            }
        }
    }
    output.flush(rt);
    let is_done = output.is_well && run.is_going;
    is_done.then_some(()).ok_or(Stop::Failed)
}
