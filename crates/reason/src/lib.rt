// Why a departure would take from a leaf or not, and the line of a sheet that says so.

#![tactic(auto)]

ghost use Rattle.std.specs.Prelude.{◌≡◌, ◌+◌, ◌≤◌, length};
ghost use Rattle.reason.specs.Reasons.{numbers, line_of, reason_of};
ghost use Rattle.reason.specs.Lines.{PutLine};

// Nothing waits; chosen by deadline; no real-time curve; not eligible until that tick; behind the chosen leaf, by a later
// deadline or by an equal one and a higher number; chosen by share; passed over at a class for a child of that virtual time.
#[derive(Clone, Copy, PartialEq, Eq)]
pub enum Reason {
    NothingWaits,
    ChosenByDeadline,
    NoCurve,
    NotEligible { until: u64 },
    LaterDeadline { chosen: u64 },
    HigherNumber { chosen: u64 },
    ChosenByShare,
    PassedOver { class: u64, child: u64, time: u64 },
}

// The numbers of a reason.
pub const NOTHING_WAITS: u64 = 0;

pub const CHOSEN_BY_DEADLINE: u64 = 1;

pub const NO_CURVE: u64 = 2;

pub const NOT_ELIGIBLE: u64 = 3;

pub const LATER_DEADLINE: u64 = 4;

pub const HIGHER_NUMBER: u64 = 5;

pub const CHOSEN_BY_SHARE: u64 = 6;

pub const PASSED_OVER: u64 = 7;

// The numbers of a line: the leaf, the reason, and up to three values.
pub const NUMBERS: usize = 5;

impl Reason {
    // Its line of a sheet, which begins with the leaf; a value is 0 where there is nothing to say.
    fn line(self, leaf: u64) -> [u64; NUMBERS]
        ensures { result ≡ line_of leaf self }
    {
        match self {
            Reason::NothingWaits => [leaf, NOTHING_WAITS, 0, 0, 0],
            Reason::ChosenByDeadline => [leaf, CHOSEN_BY_DEADLINE, 0, 0, 0],
            Reason::NoCurve => [leaf, NO_CURVE, 0, 0, 0],
            Reason::NotEligible { until } => [leaf, NOT_ELIGIBLE, until, 0, 0],
            Reason::LaterDeadline { chosen } => [leaf, LATER_DEADLINE, chosen, 0, 0],
            Reason::HigherNumber { chosen } => [leaf, HIGHER_NUMBER, chosen, 0, 0],
            Reason::ChosenByShare => [leaf, CHOSEN_BY_SHARE, 0, 0, 0],
            Reason::PassedOver { class, child, time } => [leaf, PASSED_OVER, class, child, time],
        }
    }
}

// Puts a leaf's line into the sheet, from that place on.
pub fn put(sheet: &mut [u64], at: usize, leaf: u64, reason: Reason)
    requires { at + numbers ≤ length sheet.old }
    ensures { PutLine sheet.old at leaf reason sheet.new }
{
    sheet[at..at + NUMBERS].copy_from_slice(&reason.line(leaf));
}

// The reason that a line's number and values say. A number that no reason has says that nothing waits.
// Stays: a sheet is a list of numbers, and the definition `reason_of` has a reason for each: `TryFrom` would have its caller name the last arm.
#[tactic(auto, unfolding(crate::specs::Reasons::reason_of))]
pub fn reason_of(number: u64, first: u64, second: u64, third: u64) -> Reason
    ensures { result ≡ reason_of number first second third }
{
    match number {
        CHOSEN_BY_DEADLINE => Reason::ChosenByDeadline,
        NO_CURVE => Reason::NoCurve,
        NOT_ELIGIBLE => Reason::NotEligible { until: first },
        LATER_DEADLINE => Reason::LaterDeadline { chosen: first },
        HIGHER_NUMBER => Reason::HigherNumber { chosen: first },
        CHOSEN_BY_SHARE => Reason::ChosenByShare,
        PASSED_OVER => Reason::PassedOver {
            class: first,
            child: second,
            time: third,
        },
        _ => Reason::NothingWaits,
    }
}
