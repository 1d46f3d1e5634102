// Logs that are accepted, and logs over a refused file.
use crate::tell;
use std::io;

pub fn run(rt: &(impl Print + Eprint), file: &[u8]) -> io::Result<()> {
    tell(rt, "empty", file, &[])?;
    tell(rt, "sent", file, &[1, 0, 3, 200, 2, 0, 3, 200])?;
    tell(rt, "found empty", file, &[3, 5, 0, 0, 3, 5, 0, 0])?;
    refused(rt, file)
}

// The first 20 bytes of the file: it ends within its contents.
fn refused(rt: &(impl Print + Eprint), file: &[u8]) -> io::Result<()> {
    let Some(front) = file.get(..20) else {
        return Ok(());
    };
    tell(rt, "refused file", front, &[])?;
    tell(rt, "refused file, short log", front, &[9])
}
