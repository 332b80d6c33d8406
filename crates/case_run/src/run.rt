//! Reads one case from a reader, and writes its line to a writer.

ghost use Rattle.std.specs.Prelude.{◌≡◌, ◌≤◌, ◌+◌, length, take, IfOk, IfSome};
ghost use Rattle.case_reply.specs.Line.{RepliesToCase, WritesReply};

use case_notation::case::MOST_CASE_BYTES;
use case_reply::judge::reply_to;
use case_reply::line::Reply;
use std::alloc::{AllocError, Global};
use std::io;
use std::io::{Read, Write};

/// Reads until the end, or until the buffer is full, and says how many bytes.
fn fill<R: Read>(reader: &mut R, buffer: &mut [u8]) -> io::Result<usize>
    ensures count { IfOk result (λ n. n ≤ length buffer.new) }
    ensures bytes { IfOk result (λ n. IfSome (R.remaining reader.old) (λ input.
        take n buffer.new ≡ take (length buffer.new) input)) }
{
    let mut at = 0;
    while at < buffer.len() {
        let count = reader.read(&mut buffer[at..])?;
        if count == 0 {
            break;
        }
        at += count;
    }
    Ok(at)
}

/// Room for a case, and for one byte more.
fn room(alloc: Global) -> Result<Vec<u8>, AllocError>
    ensures { IfOk result (λ v. length v.items ≡ MOST_CASE_BYTES + 1) }
{
    vec![in alloc; 0u8; MOST_CASE_BYTES + 1]
}

/// Reads one case into the buffer, and replies to it.
fn reply_within<R: Read>(alloc: Global, reader: &mut R, buffer: &mut [u8]) -> io::Result<Reply>
    requires { length buffer.old ≡ MOST_CASE_BYTES + 1 }
    ensures { IfOk result (λ reply. IfSome (R.remaining reader.old) (λ input. RepliesToCase input reply)) }
{
    let count = fill(reader, buffer)?;
    Ok(reply_to(alloc, &buffer[..count]))
}

/// Reads one case, and replies to it.
#[tactic(auto, using(crate::proofs::Cases::memory_any))]
fn reply<R: Read>(alloc: Global, reader: &mut R) -> io::Result<Reply>
    ensures { IfOk result (λ reply. IfSome (R.remaining reader.old) (λ input. RepliesToCase input reply)) }
{
    match room(alloc) {
        Ok(mut buffer) => reply_within(alloc, reader, buffer.as_mut_slice()),
        Err(_) => Ok(Reply::Memory),
    }
}

/// Reads one case, writes one line, and answers the exit status.
///
/// An Err is that of the read or the write that failed. After a failed read nothing is written. After a failed write a
/// part of the line may have been. The contract is about an Ok, of a reader and a writer whose bytes are known. At
/// most one byte more is read than a case may have ([`MOST_CASE_BYTES`]).
#[tactic(auto, using(crate::proofs::Cases::reply_writes))]
pub fn run_case<R: Read, W: Write>(alloc: Global, reader: &mut R, writer: &mut W) -> io::Result<u8>
    ensures { IfOk result (λ status. IfSome (R.remaining reader.old) (λ input.
        WritesReply input (W.contents writer.old) (W.contents writer.new) status)) }
{
    let reply = reply(alloc, reader)?;
    reply.write(writer)?;
    writer.flush()?;
    Ok(reply.status())
}
