//! Reads documents from a reader, and writes their verdicts to a writer.

ghost use Rattle.std.specs.Prelude.{◌≡◌, ◌<◌, List, ℕ, [], length, IfOk, IfSome, OnOk};
ghost use Rattle.json_verdict.specs.Runs.{Replies, RepliesToLines};
ghost use Rattle.json_verdict.specs.walk.Stream.{Holds};
ghost use Rattle.json_verdict.specs.walk.Lines.{HasTaken};

use crate::reply::reply_to;
use crate::stream::Stream;
use crate::text::Bytes;
pub use json_answers::Form;
use std::alloc::Global;
use std::io;
use std::io::{Read, Write};

/// The error of an input that has not ended after as many reads as can be counted.
fn no_end() -> io::Error {
    io::Error::other("the input has no end")
}

/// Room for what one read gives.
fn room() -> [u8; 32768]
    ensures { length result ≡ 32768 }
{
    [0; 32768]
}

/// Reads until the input ends, or until so much was read that the verdict is known.
fn read<R: Read>(reader: &mut R, bytes: &mut Bytes, chunk: &mut [u8]) -> io::Result<()>
    requires room { 0 < length chunk.old }
    requires empty { Holds bytes.old [] }
    ensures { OnOk result (IfSome (R.remaining reader.old) (λ input. Holds bytes.new input)) }
{
    'reads: for _ in 0..u64::MAX {
        let count = reader.read(chunk)?;
        bytes.push_all(&chunk[..count]);
        if count == 0 {
            return Ok(());
        }
        if bytes.is_settled() {
            return Ok(());
        }
    }
    Err(no_end())
}

/// Reads one document, writes its verdict, and answers the exit status.
///
/// An Err is that of the reader or the writer, or that the input has no end. Reading ends where the input ends, or as
/// soon as the verdict is known: after one byte more than a document may have, or out of memory.
pub fn run_document<R: Read, W: Write>(
    alloc: Global,
    reader: &mut R,
    writer: &mut W,
    form: Form,
) -> io::Result<u8>
    ensures { IfOk result (λ status. IfSome (R.remaining reader.old) (λ input.
        Replies form input (W.contents writer.old) (W.contents writer.new) status)) }
{
    let mut bytes = Bytes::new(alloc);
    let mut chunk = room();
    read(reader, &mut bytes, &mut chunk)?;
    let status = reply_to(alloc, writer, &mut bytes, form)?;
    writer.flush()?;
    Ok(status)
}

/// Reads until the input ends, writes the verdict of each line, and answers the largest exit status.
fn read_lines<R: Read, W: Write>(
    alloc: Global,
    reader: &mut R,
    writer: &mut W,
    stream: &mut Stream,
    chunk: &mut [u8],
) -> io::Result<u8>
    requires room { 0 < length chunk.old }
    requires begins { HasTaken stream.old [] (W.contents writer.old) (W.contents writer.old) }
    ensures { IfOk result (λ status. IfSome (R.remaining reader.old) (λ input.
        RepliesToLines input (W.contents writer.old) (W.contents writer.new) status)) }
{
    'reads: for _ in 0..u64::MAX {
        let count = reader.read(chunk)?;
        if count == 0 {
            return stream.finish(alloc, writer);
        }
        stream.take_all(alloc, writer, &chunk[..count])?;
        writer.flush()?;
    }
    Err(no_end())
}

/// Reads one document a line until the input ends, and writes each verdict as a line of JSON.
///
/// It answers the largest of their exit statuses, and 0 if there is no document. An Err is that of the reader or the
/// writer, or that the input has no end. The last line needs no newline. An empty line is an unreadable document. A line
/// that is too long is read to its end, since another may follow.
pub fn run_lines<R: Read, W: Write>(alloc: Global, reader: &mut R, writer: &mut W) -> io::Result<u8>
    ensures { IfOk result (λ status. IfSome (R.remaining reader.old) (λ input.
        RepliesToLines input (W.contents writer.old) (W.contents writer.new) status)) }
{
    let mut stream = Stream::new(alloc);
    let mut chunk = room();
    let status = read_lines(alloc, reader, writer, &mut stream, &mut chunk)?;
    writer.flush()?;
    Ok(status)
}
