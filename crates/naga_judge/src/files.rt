//! Judges files and standard input, and writes what is asked for of each.

use crate::answered::write_answered;
use check_faults::ModuleFault;
use json_answers::line::{json_line, write_verdict};
use json_answers::verdict::drop_examined;
use json_answers::{Examined, Verdict, alone};
use json_document::MOST_BYTES;
use json_faults::writer::JsonWriter;
use json_verdict::examine::examine;
use json_verdict::run::{Form, run_document, run_lines};
use std::alloc::{AllocError, Global};
use std::io::{Read, Write};
use std::rt::Files;
use std::{fmt, fs, io};

/// The exit status of out of memory.
pub(crate) const MEMORY: u8 = 3;

/// The exit status of a read or a write that failed.
pub(crate) const FAILED: u8 = 4;

/// What is written of a text.
#[derive(Clone, Copy, PartialEq, Eq, Debug)]
pub(crate) enum Output {
    /// Its verdict for a person.
    Verdict,
    /// The same, and a listing of what is refused.
    Listing,
    /// Its verdict as JSON.
    Json,
    /// The verdict of each line as JSON.
    JsonLines,
}

/// Judges the files with these paths, in order, and answers the largest exit status. `-` is standard input.
///
/// Of several files each verdict has its file before it. As JSON it is an object of the two, but with
/// [`Output::JsonLines`], where the verdicts of one file follow those of another. What can't be read or written is
/// reported, with the status 4, or 3 out of memory, and the next file is judged all the same.
pub(crate) fn run_files<R: Files + Input + Eprint + AllocGlobal, W: Write>(
    rt: &R,
    writer: &mut W,
    output: Output,
    paths: &[&str],
) -> u8 {
    let mut status = 0u8;
    for path in paths {
        let name = if paths.len() > 1 { Some(*path) } else { None };
        let own = match run_file(rt, writer, output, *path, name) {
            Ok(own) => own,
            Err(error) => report(rt, *path, &error),
        };
        status = status.max(own);
    }
    status
}

/// Reports that a file can't be read, or that its verdict can't be written, and answers the exit status.
fn report<R: Eprint>(rt: &R, path: &str, error: &io::Error) -> u8 {
    // Where this can't be written either, the status says it alone.
    let _ = eprintln!(rt; "naga_judge: {path}: {error}");
    failure(error)
}

/// The exit status of an error of the reader or the writer.
pub(crate) fn failure(error: &io::Error) -> u8 {
    if error.kind() == io::ErrorKind::OutOfMemory {
        MEMORY
    } else {
        FAILED
    }
}

/// Judges a file, or standard input.
fn run_file<R: Files + Input + AllocGlobal, W: Write>(
    rt: &R,
    writer: &mut W,
    output: Output,
    path: &str,
    name: Option<&str>,
) -> io::Result<u8> {
    if path == "-" {
        return run_reader(rt.alloc(), &mut rt.reader(), writer, output, name);
    }
    let mut file = fs::open(rt, path)?;
    run_reader(rt.alloc(), &mut file, writer, output, name)
}

/// Judges what a reader gives, and answers the exit status. `name` is written before the verdict.
///
/// An Err is that of the reader or the writer.
pub(crate) fn run_reader<R: Read, W: Write>(
    alloc: Global,
    reader: &mut R,
    writer: &mut W,
    output: Output,
    name: Option<&str>,
) -> io::Result<u8> {
    match (output, name) {
        (Output::JsonLines, _) => return run_lines(alloc, reader, writer),
        (Output::Json, None) => return run_document(alloc, reader, writer, Form::Json),
        _ => (),
    }
    let bytes = read_bytes(alloc, reader)?;
    let mut text = String::new(alloc);
    match write_answer(alloc, &mut text, output, name, &bytes) {
        Ok(status) => {
            writer.write_all(text.as_str().as_bytes())?;
            writer.flush()?;
            Ok(status)
        }
        Err(_) => write_memory(writer, output, name),
    }
}

/// Writes that there was no memory for a verdict, and answers the exit status. It takes none.
fn write_memory<W: Write>(writer: &mut W, output: Output, name: Option<&str>) -> io::Result<u8> {
    let is_json = matches!(output, Output::Json | Output::JsonLines);
    match name {
        Some(_) if is_json => return Err(io::Error::from(io::ErrorKind::OutOfMemory)),
        Some(name) => {
            writer.write_all(name.as_bytes())?;
            writer.write_all(b": memory\n".as_slice())?;
        }
        None if is_json => writer.write_all(b"\"memory\"\n".as_slice())?,
        None => writer.write_all(b"memory\n".as_slice())?,
    }
    writer.flush()?;
    Ok(MEMORY)
}

/// Reads until the input ends, or until it is longer than a document may be. None is out of memory.
fn read_bytes<R: Read>(alloc: Global, reader: &mut R) -> io::Result<Option<Vec<u8>>> {
    let mut bytes = Vec::new(alloc);
    let mut chunk = [0u8; 4096];
    for _ in 0..u64::MAX {
        let count = reader.read(&mut chunk)?;
        if bytes.extend_from_slice(&chunk[..count]).is_err() {
            return Ok(None);
        }
        if count == 0 || bytes.len() > MOST_BYTES {
            break;
        }
    }
    Ok(Some(bytes))
}

/// Writes what is asked for of a text, with the end of its last line, and answers the exit status. None is a text that there was
/// no memory for. An Err is out of memory.
fn write_answer(
    alloc: Global,
    text: &mut String,
    output: Output,
    name: Option<&str>,
    bytes: &Option<Vec<u8>>,
) -> Result<u8, fmt::Error> {
    let examined = match bytes {
        Some(bytes) => examine(alloc, bytes.as_slice()),
        None => alone(None, Verdict::Refused(ModuleFault::Memory)),
    };
    let status = examined.verdict.status();
    let written = match output {
        Output::Verdict => write_for_person(alloc, text, false, name, &examined),
        Output::Listing => write_for_person(alloc, text, true, name, &examined),
        Output::Json | Output::JsonLines => write_as_json(alloc, text, name, &examined),
    };
    drop_examined(examined);
    match written {
        Ok(()) => Ok(status),
        Err(error) => Err(error),
    }
}

/// Writes a verdict for a person, after the name of its file.
fn write_for_person(
    alloc: Global,
    text: &mut String,
    is_listed: bool,
    name: Option<&str>,
    examined: &Examined,
) -> fmt::Result {
    if let Some(name) = name {
        text.push_str(name)?;
        text.push_str(": ")?;
    }
    write_answered(alloc, text, examined, is_listed)?;
    text.push_str("\n")?;
    Ok(())
}

/// Writes a verdict as JSON, in an object after the name of its file.
fn write_as_json(
    alloc: Global,
    text: &mut String,
    name: Option<&str>,
    examined: &Examined,
) -> fmt::Result {
    let line = line_of(alloc, name, examined)?;
    text.push_str(line.as_str())?;
    text.push_str("\n")?;
    Ok(())
}

/// The line of a verdict: as JSON, or in an object after the name of its file.
fn line_of(alloc: Global, name: Option<&str>, examined: &Examined) -> Result<String, AllocError> {
    match name {
        Some(name) => line_of_file(alloc, name, examined),
        None => json_line(alloc, examined),
    }
}

/// A verdict as JSON, in an object after the name of its file.
fn line_of_file(alloc: Global, name: &str, examined: &Examined) -> Result<String, AllocError> {
    let mut out = JsonWriter::new(alloc);
    out.open("file")?;
    out.string(name)?;
    out.key("verdict")?;
    write_verdict(alloc, &mut out, examined)?;
    out.end_object()?;
    Ok(out.into_text())
}
