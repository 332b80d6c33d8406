//! A stream of documents, one a line.

ghost use Rattle.std.specs.Prelude.{◌≡◌, max, ◌++◌, ◌∷◌, ℕ, List, [], Option, IfOk, OnOk, MatchOption};
ghost use Rattle.json_verdict.specs.Runs.{RepliesToLines};
ghost use Rattle.json_verdict.specs.walk.Lines.{HasTaken, IsPlain};

use crate::reply::reply_to;
use crate::text::Bytes;
use json_answers::Form;
use memchr::memchr;
use std::alloc::Global;
use std::io;
use std::io::Write;

/// The greater of two numbers.
fn greater(a: u8, b: u8) -> u8
    ensures { result ≡ max a b }
{
    if a < b { b } else { a }
}

/// The bytes before the first newline, and those after it; `None` where there is none.
fn cut<'b>(bytes: &'b [u8]) -> Option<(&'b [u8], &'b [u8])>
    ensures { MatchOption result (IsPlain bytes.now)
        (λ parts. IsPlain parts.0.now × (bytes.now ≡ parts.0.now ++ 10 ∷ parts.1.now)) }
{
    match memchr(b'\n', bytes) {
        Some(end) => Some((&bytes[..end], &bytes[end + 1..])),
        None => None,
    }
}

/// A stream of lines: the line that is being read, whether it has a byte, and the largest exit status so far.
#[derive(Drop)]
pub(crate) struct Stream {
    bytes: Bytes,
    is_begun: bool,
    status: u8,
}

impl Stream {
    /// Nothing has come in.
    pub fn new(alloc: Global) -> Self
        ensures { (start : Option (List ℕ)) → HasTaken result [] start start }
    {
        Stream {
            bytes: Bytes::new(alloc),
            is_begun: false,
            status: 0,
        }
    }

    /// Replies to the line.
    fn end_line<W: Write>(&mut self, alloc: Global, writer: &mut W) -> io::Result<()>
        ensures { OnOk result ((input : List ℕ) (start : Option (List ℕ)) →
            HasTaken self.old input start (W.contents writer.old) →
            HasTaken self.new (input ++ 10 ∷ []) start (W.contents writer.new)) }
    {
        let status = reply_to(alloc, writer, &mut self.bytes, Form::Json)?;
        self.status = greater(self.status, status);
        self.bytes.clear();
        self.is_begun = false;
        Ok(())
    }

    /// Takes bytes of the line, which have no newline.
    fn take(&mut self, part: &[u8])
        requires plain { IsPlain part.now }
        ensures { (input : List ℕ) (start written : Option (List ℕ)) → HasTaken self.old input start written →
            HasTaken self.new (input ++ part.now) start written }
    {
        if part.is_empty() {
            return;
        }
        self.bytes.push_all(part);
        self.is_begun = true;
    }

    /// Takes these bytes, and writes the verdict of each line that ends in them.
    pub(crate) fn take_all<W: Write>(
        &mut self,
        alloc: Global,
        writer: &mut W,
        bytes: &[u8],
    ) -> io::Result<()>
        ensures { OnOk result ((input : List ℕ) (start : Option (List ℕ)) →
            HasTaken self.old input start (W.contents writer.old) →
            HasTaken self.new (input ++ bytes.now) start (W.contents writer.new)) }
    {
        let mut rest = bytes;
        'lines: while let Some((line, after)) = cut(rest) {
            self.take(line);
            self.end_line(alloc, writer)?;
            rest = after;
        }
        self.take(rest);
        Ok(())
    }

    /// Writes the verdict of the last line, if it has a byte, and answers the largest exit status.
    pub fn finish<W: Write>(&mut self, alloc: Global, writer: &mut W) -> io::Result<u8>
        ensures { IfOk result (λ status. (input : List ℕ) (start : Option (List ℕ)) →
            HasTaken self.old input start (W.contents writer.old) →
            RepliesToLines input start (W.contents writer.new) status) }
    {
        if self.is_begun {
            let status = reply_to(alloc, writer, &mut self.bytes, Form::Json)?;
            return Ok(greater(self.status, status));
        }
        Ok(self.status)
    }
}
