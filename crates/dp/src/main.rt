//! The program `dp`: hands the words of the command line, the files of the system and the standard streams to the
//! runner, and ends with the status that it answers.
#![tactic(auto)]

use dp_draws::{ChaChaDraws, NoDraws};
use dp_io::{FileShelf, StdSink};
use dp_runner::{end_without_memory, run_words};
use std::fs::File;
use std::io::Read;
use std::process::ExitCode;
use std::{env, fs, io};

fn main(rt: HostRuntime) -> ExitCode {
    let alloc = rt.alloc();
    // The shelf looks whether the standard input is there before anything can take its place.
    let mut shelf = FileShelf::new(&rt, alloc);
    let _held = hold_streams(&rt);
    let mut out = StdSink::out(&rt);
    let mut err = StdSink::err(&rt);
    let words = match words(&rt) {
        Ok(words) => words,
        Err(error) if error.kind() == io::ErrorKind::OutOfMemory => {
            return ExitCode::from(end_without_memory(&mut err));
        }
        // A command line that is no text is of no form, as no words are.
        Err(_) => Vec::new(alloc),
    };
    let status = match seed(&rt) {
        Ok(seed) => run_words(
            alloc,
            &words,
            &mut shelf,
            &mut ChaChaDraws::new(seed),
            &mut out,
            &mut err,
        ),
        // Without a seed no draw is given.
        Err(_) => run_words(
            alloc,
            &words,
            &mut shelf,
            &mut NoDraws::new(),
            &mut out,
            &mut err,
        ),
    };
    ExitCode::from(status)
}

/// The seed of the draws: 32 bytes of `/dev/urandom`.
fn seed(rt: &HostRuntime) -> io::Result<[u8; 32]> {
    let mut seed = [0; 32];
    fs::open(rt, "/dev/urandom")?.read_exact(&mut seed)?;
    Ok(seed)
}

/// Opens `/dev/null` for reading alone, so often that none of the three standard streams is free after it. A file that
/// is opened later then never takes the place of a closed stream, and a write to a closed output still fails.
fn hold_streams(rt: &HostRuntime) -> [io::Result<File>; 3] {
    [
        fs::open(rt, "/dev/null"),
        fs::open(rt, "/dev/null"),
        fs::open(rt, "/dev/null"),
    ]
}

/// The words of the command line without the program's own name.
fn words(rt: &HostRuntime) -> io::Result<Vec<String>> {
    Ok(env::args(rt)?.skip(1).collect(rt.alloc())?)
}
