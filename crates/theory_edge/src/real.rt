ghost use Rattle.std.specs.Prelude.{◌≡◌, ◌≤◌, None, OnErr, string_bytes};
ghost use Rattle.theory_meaning.specs.Faults.{HasCause, Rose};
ghost use Rattle.theory_edge.specs.Real.{real_told, stream_told, after_real_read, after_real_write};

use crate::files::{Asked, EndFault, Files, count_after};
use crate::sink::{Failed, Sink};
use std::alloc::Global;
use std::fs::File;
use std::io::{self, ErrorKind, Read, Stderr, Stdout, Write};
use std::marker::Model;
use std::rt::Files as SystemFiles;
use theory_points::Bytes;

/// The files of the system, under the paths that it knows them by.
#[derive(Drop)]
pub struct RealFiles<R> {
    system: R,
    reads: u64,
    faults: u64,
    asking: Option<Asked>,
}

impl<R> Model for RealFiles<R> {
    ghost use Rattle.theory_edge.specs.Real.{RealState};

    ghost Value = { RealState };

    ghost view = { λ f. record { reads = f.reads; faults = f.faults; asked = f.asking } };
}

impl<R> RealFiles<R> {
    pub fn new(system: R) -> Self
        ensures { result ≡ record { reads = 0; faults = 0; asked = None } }
    {
        RealFiles {
            system,
            reads: 0,
            faults: 0,
            asking: None,
        }
    }
}

impl<R: SystemFiles> Files for RealFiles<R> {
    ghost told = { real_told };

    fn read(&mut self, alloc: Global, name: String, limit: usize) -> Result<Bytes, EndFault>
        ensures cause { HasCause EndFault.Failed self.old.faults self.new.faults result }
        ensures state { self.new ≡ after_real_read self.old (string_bytes name) result }
    {
        let before = self.faults;
        self.reads = self.reads.saturating_add(1);
        let answer = front_of_file(&self.system, alloc, name.as_str(), limit);
        self.faults = count_after(before, &answer);
        self.asking = Some(Asked::new(name, before));
        answer
    }

    fn faults(&self) -> u64 {
        self.faults
    }
}

fn front_of_file<R: SystemFiles>(
    system: &R,
    alloc: Global,
    name: &str,
    limit: usize,
) -> Result<Bytes, EndFault> {
    match bytes_of_file(system, alloc, name, limit) {
        Ok(bytes) => Ok(Bytes::from_vec(bytes)),
        Err(e) if e.kind() == ErrorKind::OutOfMemory => Err(EndFault::NoMemory),
        Err(_) => Err(EndFault::Failed),
    }
}

fn bytes_of_file<R: SystemFiles>(
    system: &R,
    alloc: Global,
    name: &str,
    limit: usize,
) -> io::Result<Vec<u8>> {
    let most = (limit as u64).saturating_add(1);
    let mut bytes = Vec::new(alloc);
    File::open(system, name)?
        .take(most)
        .read_to_end(&mut bytes)?;
    Ok(bytes)
}

/// Standard output or standard error, each written to at once and without a buffer.
#[derive(Drop)]
pub struct RealSink {
    stream: Stream,
    faults: u64,
}

#[derive(Clone, Copy)]
enum Stream {
    Output(Stdout),
    Errors(Stderr),
}

impl Model for RealSink {
    ghost use Rattle.std.specs.Prelude.{ℕ};

    ghost Value = { ℕ };

    ghost view = { λ s. s.faults };
}

impl RealSink {
    pub fn output(stdout: Stdout) -> Self
        ensures { result ≡ 0 }
    {
        RealSink {
            stream: Stream::Output(stdout),
            faults: 0,
        }
    }

    pub fn errors(stderr: Stderr) -> Self
        ensures { result ≡ 0 }
    {
        RealSink {
            stream: Stream::Errors(stderr),
            faults: 0,
        }
    }
}

impl Sink for RealSink {
    ghost told = { stream_told };

    fn write(&mut self, piece: &[u8]) -> Result<(), Failed>
        ensures later { self.old ≤ self.new }
        ensures cause { OnErr result (Rose self.old self.new) }
        ensures state { self.new ≡ after_real_write self.old result }
    {
        if write_whole(self.stream, piece).is_err() {
            self.faults = self.faults.saturating_add(1);
            return Err(Failed);
        }
        Ok(())
    }

    fn faults(&self) -> u64 {
        self.faults
    }
}

fn write_whole(stream: Stream, piece: &[u8]) -> io::Result<()> {
    match stream {
        Stream::Output(mut stdout) => stdout.write_all(piece),
        Stream::Errors(mut stderr) => stderr.write_all(piece),
    }
}
