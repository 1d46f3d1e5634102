// What a call of the scheduler answers, and the two small functions that stand on no state. The rules
// themselves, and the guarantee, are the definitions and theorems of specs/ and proofs/.

#![tactic(auto)]

ghost use Rattle.std.specs.Prelude.{◌≡◌};
ghost use Rattle.rules.specs.Limits as limits;
ghost use Rattle.rules.specs.Clock.{elapsed_ticks};

// A packet's most bytes; the packets that may wait in a leaf; the last tick, and the most bytes accepted;
// the fewest elapsed ticks that are too many.
pub const LONGEST: u32 = 9000;

pub const ROOM: u64 = 64;

pub const LAST_TICK: u64 = 1099511627776;

pub const MOST_BYTES: u64 = 1099511627776;

pub const TOO_FAR: u32 = 2147483648;

// What the link sends around a packet: 8 bytes of preamble and start mark, and a gap of 12 byte-times.
const FRAMING: u64 = 8 + 12;

// The rule by which a packet leaves.
#[derive(Clone, Copy, PartialEq, Eq)]
pub enum Rule {
    RealTime,
    Fair,
}

// Eligible time and deadline, for a leaf with a real-time curve.
#[derive(Clone, Copy, PartialEq, Eq)]
pub struct Times {
    pub eligible: u64,
    pub deadline: u64,
}

// A packet that leaves: its class, its number within the leaf from 0, its length. An arrival answers the number of the packet or a
// refusal, a departure a packet, or none where none waits, or a refusal.
#[derive(Clone, Copy, PartialEq, Eq)]
pub struct Packet {
    pub class: u32,
    pub number: u64,
    pub length: u32,
    pub rule: Rule,
    pub times: Option<Times>,
}

// What a packet of this length counts for, in bytes and in ticks of the link: itself and its framing.
pub fn weigh(length: u32) -> u64
    ensures { result ≡ limits.weigh length }
{
    length as u64 + FRAMING
}

// The ticks from the last kept stamp to this one, by a counter that comes round to zero.
pub fn elapsed(stamp: u32, last: u32) -> u32
    ensures { result ≡ elapsed_ticks stamp last }
{
    stamp.wrapping_sub(last)
}
