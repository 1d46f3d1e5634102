// Logs with a wrong record.
use crate::tell;
use std::io;

pub fn run(rt: &(impl Print + Eprint), file: &[u8]) -> io::Result<()> {
    malformed(rt, file)?;
    refused(rt, file)?;
    another(rt, file)
}

fn malformed(rt: &(impl Print + Eprint), file: &[u8]) -> io::Result<()> {
    tell(rt, "kind 4", file, &[1, 0, 3, 200, 4, 0, 0, 0])?;
    tell(rt, "kind 3 with a class", file, &[3, 0, 3, 0])?;
    tell(rt, "kind 3 with a length", file, &[3, 0, 0, 1])?;
    tell(rt, "short", file, &[1, 0, 3, 200, 2, 0, 3])?;
    tell(rt, "short after a wrong one", file, &[0, 0, 0, 0, 1])
}

fn refused(rt: &(impl Print + Eprint), file: &[u8]) -> io::Result<()> {
    tell(rt, "not a leaf", file, &[1, 0, 2, 200, 4, 0, 0, 0])?;
    tell(rt, "no length", file, &[1, 0, 3, 200, 1, 0, 3, 0])?;
    tell(rt, "stamp goes back", file, &[1, 9, 3, 200, 2, 8, 3, 200])?;
    tell(
        rt,
        "empty, stamp goes back",
        file,
        &[3, 9, 0, 0, 3, 8, 0, 0],
    )
}

fn another(rt: &(impl Print + Eprint), file: &[u8]) -> io::Result<()> {
    tell(rt, "another class", file, &[1, 0, 3, 200, 2, 0, 4, 200])?;
    tell(rt, "another length", file, &[1, 0, 3, 200, 2, 0, 3, 201])?;
    tell(rt, "none waits", file, &[2, 0, 3, 200])?;
    tell(rt, "one waits", file, &[1, 0, 3, 200, 3, 0, 0, 0])?;
    tell(
        rt,
        "first of two",
        file,
        &[1, 0, 3, 200, 3, 0, 0, 0, 4, 0, 0, 0],
    )
}
