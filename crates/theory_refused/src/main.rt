//! Runs the program on a file whose text is refused, and ends with its status.
#![tactic(auto)]

use std::alloc::{AllocError, Global};
use std::process::ExitCode;
use theory_cli::{NoWords, program};
use theory_edge::{RealFiles, RealSink};

fn main(rt: HostRuntime) -> ExitCode {
    let mut files = RealFiles::new(&rt);
    let mut out = RealSink::output(rt.stdout());
    let mut err = RealSink::errors(rt.stderr());
    let words = words(rt.alloc()).map_err(|_| NoWords::NoMemory);
    ExitCode::from(program(rt.alloc(), words, &mut files, &mut out, &mut err))
}

fn words(alloc: Global) -> Result<Vec<String>, AllocError> {
    let mut words = Vec::new(alloc);
    words.push(String::from_str(alloc, "check")?)?;
    words.push(String::from_str(alloc, "refused.theory")?)?;
    Ok(words)
}
