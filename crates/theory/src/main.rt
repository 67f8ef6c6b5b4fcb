// The program: its words, the files of the system and its two streams go to the top call.
#![tactic(auto)]

use std::io::ErrorKind;
use std::process::ExitCode;
use std::{env, io};
use theory_cli::{NoWords, program};
use theory_edge::{RealFiles, RealSink};

fn main(rt: HostRuntime) -> ExitCode {
    let mut files = RealFiles::new(&rt);
    let mut out = RealSink::output(rt.stdout());
    let mut err = RealSink::errors(rt.stderr());
    let words = match words(&rt) {
        Err(e) if e.kind() == ErrorKind::OutOfMemory => Err(NoWords::NoMemory),
        words => words.map_err(|_| NoWords::NotText),
    };
    ExitCode::from(program(rt.alloc(), words, &mut files, &mut out, &mut err))
}

// The words behind the program's name.
fn words(rt: &HostRuntime) -> io::Result<Vec<String>> {
    let mut words = Vec::new(rt.alloc());
    for word in env::args(rt)?.skip(1) {
        words.push(word)?;
    }
    Ok(words)
}
