//! Program for users: judges whole modules from JSON documents (docs/MODULES.md).
//!
//! It reads documents from files or from standard input, and writes verdicts to standard output. Its exit status: 0
//! accepted, 1 refused, 2 not a document or a wrong command line, 3 out of memory, 4 reading or writing failed; of
//! several documents the largest.
#![tactic(auto)]

mod answered;
mod files;

use crate::files::{MEMORY, Output, failure, run_files, run_reader};
use clap::Error;
use clap::error::ErrorKind;
use json_verdict::run::{Form, run_document};
use judge_arguments::{Request, request_of};
use std::alloc::Global;
use std::io;
use std::io::{Read, Write};
use std::process::ExitCode;

/// The exit status of a command line that is wrong.
const WRONG: u8 = 2;

/// Does what the command line asks for, and answers the exit status. An Err is that of the arguments, the reader or
/// the writer.
fn answer(rt: &HostRuntime) -> io::Result<u8> {
    let alloc = rt.alloc();
    let arguments = match std::env::args(rt) {
        Ok(arguments) => arguments,
        Err(error) if error.kind() == io::ErrorKind::InvalidData => {
            eprintln!(rt; "naga_judge: a word of the command line is not UTF-8")?;
            return Ok(WRONG);
        }
        Err(error) => return Err(error),
    };
    let words: Vec<String> = arguments.collect(alloc)?;
    let answered = answer_words(rt, words.as_slice());
    drop(words);
    answered
}

/// Does what these words ask for.
fn answer_words(rt: &HostRuntime, words: &[String]) -> io::Result<u8> {
    match request_of(rt.alloc(), words) {
        Ok(request) => {
            let answered = answer_request(rt, &request);
            drop(request);
            answered
        }
        Err(error) => {
            let answered = report(rt, &error);
            drop(error);
            answered
        }
    }
}

/// Writes what is wrong with the words, or the help or the version that they ask for, and answers the exit status.
fn report(rt: &HostRuntime, error: &Error) -> io::Result<u8> {
    error.print(rt)?;
    if error.kind() == ErrorKind::OutOfMemory {
        Ok(MEMORY)
    } else {
        Ok(error.exit_code() as u8)
    }
}

/// What is written of each document.
fn output_of(request: &Request<'_>) -> Output {
    if request.is_lines {
        Output::JsonLines
    } else if request.is_json {
        Output::Json
    } else if request.is_explained {
        Output::Listing
    } else {
        Output::Verdict
    }
}

/// Does what is asked for.
fn answer_request(rt: &HostRuntime, request: &Request<'_>) -> io::Result<u8> {
    if request.is_quiet {
        run(rt, &mut io::sink(), request)
    } else {
        run(rt, &mut io::writer(rt), request)
    }
}

/// Judges the files, or standard input, and answers the exit status. An Err is that of the reader or the writer.
fn run<W: Write>(rt: &HostRuntime, writer: &mut W, request: &Request<'_>) -> io::Result<u8> {
    let output = output_of(request);
    if !request.files.is_empty() {
        return Ok(run_files(rt, writer, output, request.files.as_slice()));
    }
    run_input(rt.alloc(), &mut rt.reader(), writer, output)
}

/// Judges what a reader gives, and answers the exit status. An Err is that of the reader or the writer.
fn run_input<R: Read, W: Write>(
    alloc: Global,
    reader: &mut R,
    writer: &mut W,
    output: Output,
) -> io::Result<u8> {
    match output {
        Output::Json => run_document(alloc, reader, writer, Form::Json),
        output => run_reader(alloc, reader, writer, output, None),
    }
}

fn main(rt: HostRuntime) -> ExitCode {
    match answer(&rt) {
        Ok(status) => ExitCode::from(status),
        Err(error) => {
            // Where this can't be written either, the status says it alone.
            let _ = eprintln!(rt; "naga_judge: {error}");
            ExitCode::from(failure(&error))
        }
    }
}
