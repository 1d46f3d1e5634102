// A tree that start refuses: no file has one, so the log is judged over the tree itself.
use judge::Rejection;
use print::Answer;
use std::io;

pub fn run(rt: &(impl Print + Eprint)) -> io::Result<()> {
    let Err(Rejection::TreeRefused { why, class }) = judge::judge(tree::empty(), 0, &[9]) else {
        return console::println(rt, "the tree of no classes is not refused");
    };
    console::text(rt, b"the tree of no classes: ")?;
    console::say(rt, Answer::TreeRefused { why, class })
}
