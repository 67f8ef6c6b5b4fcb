//! Reads tables of expected results, a file for each word, and prints each row that differs, and
//! last how many rows there were.
#![tactic(auto)]

mod calls;
mod changing;
mod lists;
mod long;
mod models;
mod postfix;
mod reading;
mod rows;
mod spelling;
mod statics;
mod tables;
mod tokens;
mod writing;

use std::process::ExitCode;
use std::{env, io};
use tables::{Tally, run_tables};
use theory_edge::{RealFiles, RealSink};
use theory_rows_method::fault::RowFault;
use theory_search::{Policies, four_policies};

fn main(rt: HostRuntime) -> ExitCode {
    match run(&rt) {
        Ok(Tally { wrong: 0, .. }) => ExitCode::SUCCESS,
        _ => ExitCode::FAILURE,
    }
}

/// Runs the tables that the words name, with a policy of each order.
fn run(rt: &HostRuntime) -> Result<Tally, RowFault> {
    let policies = four_policies!(rt.alloc());
    run_on(rt, &policies)
}

fn run_on(rt: &HostRuntime, policies: &Policies) -> Result<Tally, RowFault> {
    let mut files = RealFiles::new(rt);
    let mut out = RealSink::output(rt.stdout());
    match words(rt) {
        Ok(names) => run_tables(rt.alloc(), policies, &names, &mut files, &mut out),
        Err(_) => Err(RowFault::Memory),
    }
}

/// The words behind the program's name.
fn words(rt: &HostRuntime) -> io::Result<Vec<String>> {
    let mut words = Vec::new(rt.alloc());
    for word in env::args(rt)?.skip(1) {
        words.push(word)?;
    }
    Ok(words)
}
