// What a host may ask of a state. Nothing is changed.
ghost use Rattle.std.specs.Prelude.{◌≡◌, length};
ghost use Rattle.rules.specs.Clock as clocks;
ghost use Rattle.rules.specs.Queues.{queue};
ghost use Rattle.rules.specs.Fair.{virtual_time_of};
ghost use Rattle.state.specs.State.{Reached};
ghost use Rattle.state.specs.Heads.{EveryHistory};
ghost use Rattle.sched.specs.Asked.{HeadTimes};

use rules::Times;
use state::table::{
    CLOCK, COUNT, DEADLINE, ELIGIBLE, HEAD_NUMBER, Lengths, NEVER, NEXT_NUMBER, VIRTUAL, Words,
    get, header,
};

// The clock.
pub fn clock(words: &Words, lengths: &Lengths) -> u64
    requires { Reached words.now lengths.now }
    ensures { EveryHistory words.now lengths.now (λ h. result ≡ clocks.clock h.calls) }
{
    header(words, CLOCK)
}

// How many packets wait in a class: none in a class with children, and none in a class that is not there.
pub fn waiting(words: &Words, lengths: &Lengths, class: u32) -> u64
    requires { Reached words.now lengths.now }
    ensures { EveryHistory words.now lengths.now (λ h. result ≡ length (queue h.calls class)) }
{
    if header(words, COUNT) <= class as u64 {
        return 0;
    }
    let leaf = class as usize;
    get(words, leaf, NEXT_NUMBER) - get(words, leaf, HEAD_NUMBER)
}

// The virtual time of a class: 0 for the root and for a class that is not there.
pub fn virtual_time(words: &Words, lengths: &Lengths, class: u32) -> u64
    requires { Reached words.now lengths.now }
    ensures { EveryHistory words.now lengths.now (λ h. result ≡ virtual_time_of h.tree h.calls class) }
{
    if header(words, COUNT) <= class as u64 {
        return 0;
    }
    get(words, class as usize, VIRTUAL)
}

// The eligible time and the deadline of a leaf's head.
pub fn head_times(words: &Words, lengths: &Lengths, class: u32) -> Option<Times>
    requires { Reached words.now lengths.now }
    ensures { EveryHistory words.now lengths.now (λ h. HeadTimes h.tree h.calls class result) }
{
    if header(words, COUNT) <= class as u64 {
        return None;
    }
    let leaf = class as usize;
    let eligible = get(words, leaf, ELIGIBLE);
    if eligible == NEVER {
        return None;
    }
    Some(Times {
        eligible,
        deadline: get(words, leaf, DEADLINE),
    })
}
