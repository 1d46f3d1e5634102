// The lines of a calls file, as docs/FORMS.md sets them down: which line is which call.

#![tactic(auto)]

ghost use Rattle.std.specs.Prelude.{◌≡◌};
ghost use Rattle.calls.specs.Lines.{said, call_in, arrive_in, error_of};

use wording::{NumberError, behind, is, is_number, number, only, uncomment, word};

// A call with its numbers.
#[derive(Clone, Copy)]
pub enum Call {
    Start { stamp: u32 },
    Arrive { stamp: u32, class: u32, length: u32 },
    Depart { stamp: u32 },
}

// Why a line is no call: a number is past 32 bits, or the form is wrong.
#[derive(Clone, Copy, PartialEq, Eq)]
pub enum LineError {
    TooLarge,
    NotACall,
}

impl From<NumberError> for LineError {
    ghost from_gives = { λ number line. line ≡ error_of number };

    fn from(error: NumberError) -> LineError {
        match error {
            NumberError::TooLarge => LineError::TooLarge,
            NumberError::NotANumber => LineError::NotACall,
        }
    }
}

// What a line says, without the end of line: a call, or nothing.
#[tactic(auto, unfolding(crate::specs::Lines::said))]
pub fn parse(line: &[u8]) -> Result<Option<Call>, LineError>
    ensures { result ≡ said line.now }
{
    call_in(uncomment(line))
}

// Stays: as a `match` with byte strings for patterns it was tried: a goal was left for each byte that may differ, 18 in all.
#[tactic(auto, using(crate::proofs::Named::call_by))]
fn call_in(text: &[u8]) -> Result<Option<Call>, LineError>
    ensures { result ≡ call_in text.now }
{
    let name = word(text);
    if name.is_empty() {
        Ok(None)
    } else if is(name, b"start") {
        Ok(Some(Call::Start {
            stamp: only(behind(text))?,
        }))
    } else if is(name, b"arrive") {
        arrive(behind(text))
    } else if is(name, b"depart") {
        Ok(Some(Call::Depart {
            stamp: only(behind(text))?,
        }))
    } else {
        Err(LineError::NotACall)
    }
}

// `arrive` with its operands. The form is judged before the sizes.
#[tactic(auto, unfolding(crate::specs::Lines::arrive_in))]
fn arrive(text: &[u8]) -> Result<Option<Call>, LineError>
    ensures { result ≡ arrive_in text.now }
{
    let second = behind(text);
    let stamp = number(word(text));
    let class = number(word(second));
    let length = only(behind(second));
    if !(is_number(stamp) && is_number(class) && is_number(length)) {
        return Err(LineError::NotACall);
    }
    Ok(Some(Call::Arrive {
        stamp: stamp?,
        class: class?,
        length: length?,
    }))
}
