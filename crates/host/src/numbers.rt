// The scheduler's answers as numbers: 0 where nothing is refused, and 0 wherever there is nothing to say.
ghost use Rattle.std.specs.Prelude.{◌≡◌};
ghost use Rattle.host.specs.Numbers as n;

use rules::{Packet, Rule, Times};
use tree::{Fault, Refusal};

// Tells the fault in an answer, whatever the answer has where there is none: the number of the refusal, with the class in `class`.
pub(crate) fn tell<T: Drop>(answer: Result<T, Fault>, class: &mut u32) -> u32
    ensures number { result ≡ n.verdict_number (n.verdict_of answer) }
    ensures class { class.new ≡ n.verdict_class (n.verdict_of answer) }
{
    match answer {
        Ok(_) => {
            *class = 0;
            0
        }
        Err(fault) => {
            *class = fault.class;
            tree::number(fault.why)
        }
    }
}

// The number of the refusal of a call, whatever the call answers where there is none.
pub(crate) fn refusal_number<T: Drop>(answer: Result<T, Refusal>) -> u32
    ensures { result ≡ n.refusal_number answer }
{
    match answer {
        Ok(_) => 0,
        Err(why) => tree::number(why),
    }
}

fn rule_number(rule: Rule) -> u64
    ensures { result ≡ n.rule_number rule }
{
    match rule {
        Rule::RealTime => 1,
        Rule::Fair => 2,
    }
}

// Timed or not, eligible time, deadline.
pub(crate) fn times_numbers(times: Option<Times>) -> [u64; 3]
    ensures { result ≡ n.times_numbers times }
{
    match times {
        None => [0, 0, 0],
        Some(Times { eligible, deadline }) => [1, eligible, deadline],
    }
}

// 1, class, number, length, rule, and its times.
fn packet_numbers(packet: Packet) -> [u64; 8]
    ensures { result ≡ n.packet_numbers packet }
{
    let [timed, eligible, deadline] = times_numbers(packet.times);
    [
        1,
        packet.class as u64,
        packet.number,
        packet.length as u64,
        rule_number(packet.rule),
        timed,
        eligible,
        deadline,
    ]
}

pub(crate) fn departure_numbers(answer: Result<Option<Packet>, Refusal>) -> [u64; 8]
    ensures { result ≡ n.departure_numbers answer }
{
    match answer {
        Ok(Some(packet)) => packet_numbers(packet),
        Ok(None) | Err(_) => [0; 8],
    }
}
