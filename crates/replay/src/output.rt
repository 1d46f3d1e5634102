// What is printed waits in an array, and is written at the latest when the next line has no room.
ghost use Rattle.std.specs.Prelude.{◌≡◌, ◌≤◌, length};
ghost use Rattle.replay.specs.Text.{Queued};

use console::TURN;
use print::put::Printer;

// The bytes in front wait. Whether those before could be written where they had to be.
#[derive(Drop)]
pub struct Output {
    bytes: [u8; TURN],
    used: usize,
    pub is_well: bool,
    ghost within: { used ≤ length bytes },
}

impl Output {
    pub fn new() -> Self
        ensures { result.used ≡ 0 }
    {
        Output {
            bytes: [0; TURN],
            used: 0,
            is_well: true,
        }
    }

    // Writes the bytes that wait.
    pub fn flush(&mut self, rt: &(impl Print + Eprint))
        ensures { (self.new.bytes ≡ self.old.bytes) × (self.new.used ≡ 0) }
    {
        let written = console::text(rt, &self.bytes[..self.used]);
        self.is_well = self.is_well && written.is_ok();
        self.used = 0;
    }

    // A line more: behind the bytes that wait, or in front once they are written.
    pub fn queue(&mut self, rt: &(impl Print + Eprint), line: &[u8])
        requires { length line.now ≤ TURN }
        ensures { Queued self.old.bytes self.old.used line.now self.new.bytes self.new.used }
    {
        if self.bytes.len() - self.used < line.len() {
            self.flush(rt);
        }
        let mut printer = Printer {
            out: &mut self.bytes,
            at: self.used,
        };
        printer.text(line);
        self.used = printer.at;
    }
}
