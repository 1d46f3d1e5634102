// A log judged over a class-tree file, and the judgement as numbers: for hosts in C.

#![tactic(auto)]

ghost use Rattle.std.specs.Prelude.{◌≡◌};
ghost use Rattle.judgefile.specs.Promises.{LogJudgedByFile, judgement_number, judgement_numbers, ours_numbers, JudgeTold};

use judge::Rejection;
use rules::Packet;
use tree::Refusal;

// Judges the log over the tree of the file, from that first stamp. The answer is the number of the judgement, and `out` says
// more of it.
pub fn judge_file(file: &[u8], first: u32, log: &[u32], out: &mut [u64; 4]) -> u32
    ensures { JudgeTold file.now first log.now result out.new }
{
    let judgement = judged(file, first, log);
    *out = numbers(judgement);
    number(judgement)
}

// A refused file is told as a refused tree.
#[tactic(auto, using(crate::specs::Promises::unread, crate::specs::Promises::read))]
fn judged(file: &[u8], first: u32, log: &[u32]) -> Result<(), Rejection>
    ensures { LogJudgedByFile file.now first log.now result }
{
    let tree = file::reader::read(file)?;
    judge::judge(tree, first, log)
}

// Stays: a judgement's number and its four numbers are the C interface.
fn number(judgement: Result<(), Rejection>) -> u32
    ensures { result ≡ judgement_number judgement }
{
    match judgement {
        Ok(()) => 0,
        Err(Rejection::TreeRefused { .. }) => 1,
        Err(Rejection::Malformed { .. }) => 2,
        Err(Rejection::Refused { .. }) => 3,
        Err(Rejection::AnotherChoice { .. }) => 4,
    }
}

// 0 wherever there is nothing to say.
fn numbers(judgement: Result<(), Rejection>) -> [u64; 4]
    ensures { result ≡ judgement_numbers judgement }
{
    match judgement {
        Ok(()) => [0; 4],
        Err(Rejection::TreeRefused { why, class }) => [
            0,
            tree::number(why) as u64,
            class as u64,
            0,
        ],
        Err(Rejection::Malformed { record }) => [record, 0, 0, 0],
        Err(Rejection::Refused { record, why }) => [record, tree::number(why) as u64, 0, 0],
        Err(Rejection::AnotherChoice { record, ours }) => ours_numbers(record, ours),
    }
}

// The record, and the packet that our rules send, if they send one.
fn ours_numbers(record: u64, ours: Result<Option<Packet>, Refusal>) -> [u64; 4]
    ensures { result ≡ ours_numbers «record» ours }
{
    match ours {
        Ok(Some(packet)) => [record, 1, packet.class as u64, packet.length as u64],
        Ok(None) | Err(_) => [record, 0, 0, 0],
    }
}
