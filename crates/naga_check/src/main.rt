//! Program for users: judges one body, written in a short notation (docs/PROGRAM.md), and writes one line.
//!
//! It reads the case from standard input, writes the line to standard output, and ends with the line's status.
#![tactic(auto)]

use case_run::run_case;
use std::io;
use std::process::ExitCode;

fn main(rt: HostRuntime) -> ExitCode {
    match run_case(rt.alloc(), &mut rt.reader(), &mut io::writer(&rt)) {
        Ok(status) => ExitCode::from(status),
        Err(_) => ExitCode::from(2),
    }
}
