//! The line that `naga_check` writes. Nothing here allocates.

ghost use Rattle.std.specs.Prelude.{◌≡◌, OnOk};
ghost use Rattle.std.specs.Io.KnownBytes.{Appends};
ghost use Rattle.case_reply.specs.FaultNames.{inner_text};
ghost use Rattle.case_reply.specs.Line.{accepted_line, fault_line, handle_text, hex_digit};

use crate::faults::fault_handle;
use bitflags::Flags;
use ir_arena::handle::Handle;
use ir_arena::tag;
use ir_errors::function::FunctionError;
use ir_flags::valid::ShaderStages;
use std::io;
use std::io::Write;

/// What the program answers to an input.
#[derive(PartialEq, Debug, Drop)]
pub enum Reply {
    /// The body is accepted, and may run in these stages.
    Accepted(ShaderStages),
    /// The first fault of the body.
    Fault(FunctionError),
    /// The input is not a case.
    Unreadable,
    /// Out of memory.
    Memory,
}

impl Reply {
    ghost use Rattle.case_reply.specs.Line.{reply_line, reply_status};

    /// WritesReply the line that says it.
    #[tactic(auto, unfolding(crate::specs::Line::reply_line))]
    pub fn write<W: Write>(&self, writer: &mut W) -> io::Result<()>
        ensures { OnOk result (Appends (W.contents writer.old) (W.contents writer.new) (reply_line self.now)) }
    {
        match self {
            Reply::Accepted(stages) => write_accepted(*stages, writer),
            Reply::Fault(fault) => write_fault(fault, writer),
            Reply::Unreadable => writer.write_all(b"unreadable\n"),
            Reply::Memory => writer.write_all(b"memory\n"),
        }
    }

    /// The exit status that says it.
    pub fn status(&self) -> u8
        ensures { result ≡ reply_status self.now }
    {
        match self {
            Reply::Accepted(_) => 0,
            Reply::Fault(_) => 1,
            Reply::Unreadable => 2,
            Reply::Memory => 3,
        }
    }
}

/// A hexadecimal digit: the last one of a number.
fn hex_digit(bits: u16) -> u8
    ensures { result ≡ hex_digit bits }
{
    let digit = (bits % 16) as u8;
    if digit < 10 {
        b'0' + digit
    } else {
        b'a' + (digit - 10)
    }
}

/// The line of an accepted body.
fn write_accepted<W: Write>(stages: ShaderStages, writer: &mut W) -> io::Result<()>
    ensures { OnOk result (Appends (W.contents writer.old) (W.contents writer.new) (accepted_line stages)) }
{
    let bits = stages.bits();
    writer.write_all(b"ok ")?;
    writer.write_all(&[hex_digit(bits / 256), hex_digit(bits / 16), hex_digit(bits)])?;
    writer.write_all(b"\n")
}

/// The line of a fault.
fn write_fault<W: Write>(fault: &FunctionError, writer: &mut W) -> io::Result<()>
    ensures { OnOk result (Appends (W.contents writer.old) (W.contents writer.new) (fault_line fault.now)) }
{
    writer.write_all(b"fault ")?;
    writer.write_all(fault.name().as_bytes())?;
    write_inner(fault, writer)?;
    write_handle(fault_handle(fault), writer)?;
    writer.write_all(b"\n")
}

/// What is wrong inside, for faults of expressions and of calls.
#[tactic(auto, unfolding(crate::specs::FaultNames::inner_text))]
fn write_inner<W: Write>(fault: &FunctionError, writer: &mut W) -> io::Result<()>
    ensures { OnOk result (Appends (W.contents writer.old) (W.contents writer.new) (inner_text fault.now)) }
{
    let name = match fault {
        FunctionError::Expression { source, .. } => source.name(),
        FunctionError::InvalidCall { error, .. } => error.name(),
        _ => return Ok(()),
    };
    writer.write_all(b"/")?;
    writer.write_all(name.as_bytes())
}

/// A space and a handle, if there is one.
#[tactic(auto, unfolding(crate::specs::Line::handle_text))]
fn write_handle<W: Write>(handle: Option<Handle<tag::Expression>>, writer: &mut W) -> io::Result<()>
    ensures { OnOk result (Appends (W.contents writer.old) (W.contents writer.new) (handle_text handle)) }
{
    match handle {
        Some(handle) => write!(writer, " {}", handle.index()),
        None => Ok(()),
    }
}
