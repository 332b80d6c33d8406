//! What is said to be expected where names are at stake: the fields of a form, names, variants, sets.

use crate::error::ReadError;
use bitflags::Flags;
use json_nodes::Node;
use std::alloc::Global;
use std::fmt;

/// Writes these names, each in quotes, with a comma between them.
fn write_names<W: fmt::Write>(out: &mut W, names: &[&'static str]) -> fmt::Result {
    let mut between = "";
    for name in names {
        write!(out, "{between}\"{name}\"")?;
        between = ", ";
    }
    Ok(())
}

/// The first of these fields that isn't there.
fn missing_field(value: &Node, names: &[&'static str]) -> Option<&'static str> {
    for name in names {
        if value.get(*name).is_none() {
            return Some(*name);
        }
    }
    None
}

/// Writes what keeps a value from being an object with exactly these fields: a field that is one too many, or else the
/// first that is missing.
fn write_fields<W: fmt::Write>(out: &mut W, value: &Node, names: &[&'static str]) -> fmt::Result {
    let ending = if names.len() == 1 { "" } else { "s" };
    if !value.is_object() {
        write!(out, "an object with the field{ending} ")?;
        return write_names(out, names);
    }
    if let Some(name) = value.other_name(names) {
        let verb = if names.len() == 1 { "is" } else { "are" };
        write!(out, "no field {name:?}: the field{ending} {verb} ")?;
        return write_names(out, names);
    }
    match missing_field(value, names) {
        Some(name) => write!(out, "the field \"{name}\""),
        None => Ok(()),
    }
}

/// Writes the variants of an enum: those that hold nothing by their names, the others with what they hold left out.
fn write_variants<W: fmt::Write, P: Copy, H: Copy>(
    out: &mut W,
    plain: &[(&'static str, P)],
    holding: &[(&'static str, H)],
) -> fmt::Result {
    let mut between = "one of ";
    for row in plain {
        let name = row.0;
        write!(out, "{between}\"{name}\"")?;
        between = ", ";
    }
    for row in holding {
        let name = row.0;
        write!(out, "{between}{{\"{name}\": ..}}")?;
        between = ", ";
    }
    Ok(())
}

/// Writes the names of the bits of a set. A name of several bits is none of them.
fn write_bits<B: Flags, W: fmt::Write>(out: &mut W, joined: &str) -> fmt::Result {
    let mut between = "one of ";
    for flag in B::flags() {
        let name = flag.name();
        if name != joined {
            write!(out, "{between}\"{name}\"")?;
            between = ", ";
        }
    }
    Ok(())
}

/// That this text was expected, where it could be written.
fn told(alloc: Global, text: String, written: fmt::Result) -> ReadError {
    match written {
        Ok(()) => ReadError::told(alloc, text),
        Err(_) => ReadError::Memory,
    }
}

/// An object with exactly these fields was expected.
pub fn expected_fields(alloc: Global, value: &Node, names: &[&'static str]) -> ReadError {
    let mut text = String::new(alloc);
    let written = write_fields(&mut text, value, names);
    told(alloc, text, written)
}

/// One of these variants was expected: of those that hold nothing, or of those that hold something.
pub(crate) fn expected_variant<P: Copy, H: Copy>(
    alloc: Global,
    plain: &[(&'static str, P)],
    holding: &[(&'static str, H)],
) -> ReadError {
    let mut text = String::new(alloc);
    let written = write_variants(&mut text, plain, holding);
    told(alloc, text, written)
}

/// One of the names of this table was expected.
pub(crate) fn expected_name<T: Copy>(alloc: Global, table: &[(&'static str, T)]) -> ReadError {
    let none: [(&'static str, ()); 0] = [];
    expected_variant(alloc, table, &none)
}

/// One of the names of a set's bits was expected.
pub(crate) fn expected_bit<B: Flags>(alloc: Global, joined: &str) -> ReadError {
    let mut text = String::new(alloc);
    let written = write_bits::<B, String>(&mut text, joined);
    told(alloc, text, written)
}
