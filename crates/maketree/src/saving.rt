// Saves a file whole, or not at all: the bytes are written to a new file beside it, which then takes its name.
use console::{ARGUMENT, Stop};
use std::fs::{OpenFile, OpenOptions};
use std::io::Write;
use std::rt::{Env, Files};
use std::{fs, io};

// What is put after the name of the file beside.
const BESIDE: &[u8] = b".new";

// The longest name that an argument can be, with what is put after it.
const LONGEST: usize = 4100;

// Saves the bytes under the name that is the second argument.
pub fn save(rt: &(impl Env + Files + Eprint), bytes: &[u8]) -> Result<(), Stop> {
    let mut name = [0u8; ARGUMENT];
    let n = console::name(rt, 2, b"TREE", &mut name)?;
    let mut beside = [0u8; LONGEST];
    let end = n + BESIDE.len();
    beside[..n].copy_from_slice(&name[..n]);
    beside[n..end].copy_from_slice(BESIDE);
    save_as(rt, bytes, &name[..n], &beside[..end])
}

// A file that is there already is left as it is.
fn save_as(
    rt: &(impl Files + Eprint),
    bytes: &[u8],
    name: &[u8],
    beside: &[u8],
) -> Result<(), Stop> {
    let file = create(rt, beside).map_err(|error| console::fail(rt, beside, error))?;
    if let Err(error) = fill(file, bytes) {
        return Err(given_up(rt, name, error, &[beside]));
    }
    // an empty file holds the name, where it is free, until the full one takes its place
    if let Err(error) = create(rt, name) {
        return Err(given_up(rt, name, error, &[beside]));
    }
    if let Err(error) = rename(rt, beside, name) {
        return Err(given_up(rt, name, error, &[beside, name]));
    }
    Ok(())
}

// A new file, where the name is free.
fn create<R: Files>(rt: &R, name: &[u8]) -> io::Result<R::File> {
    OpenOptions::new()
        .write(true)
        .create_new(true)
        .open(rt, console::path(name)?)
}

// Where this is well, all bytes have reached the disk.
fn fill<F: Write + OpenFile + Drop>(file: F, bytes: &[u8]) -> io::Result<()> {
    let mut file = file;
    file.write_all(bytes)?;
    file.sync_all()
}

fn rename(rt: &impl Files, from: &[u8], to: &[u8]) -> io::Result<()> {
    fs::rename(rt, console::path(from)?, console::path(to)?)
}

// Why the name could not be taken is said, and the files that were made are removed, where they can be.
fn given_up(rt: &(impl Files + Eprint), name: &[u8], error: io::Error, made: &[&[u8]]) -> Stop {
    let stop = console::fail(rt, name, error);
    for name in made {
        if let Ok(path) = console::path(name) {
            let _ = fs::remove_file(rt, path);
        }
    }
    stop
}
