//! Numbers, texts and handles.

ghost use Rattle.std.specs.Prelude.{◌≡◌};
ghost use Rattle.serde_json.specs.Find.{as_bool, as_str};
ghost use Rattle.json_nodes.specs.Nodes.{data_of};
ghost use Rattle.json_values.specs.ReadNumbers.{u8_of, u32_of, u64_of, i32_of, nonzero_of};

use crate::error::ReadError;
use crate::from_json::{FromJson, Held};
use ir_arena::Handle;
use ir_leaves::Name;
use json_nodes::Node;
use std::num::NonZeroU32;

/// The integer of 8 bits that a value is.
pub fn byte(value: &Node) -> Option<u8>
    ensures { result ≡ u8_of (data_of value.now) }
{
    match value.as_u64() {
        Some(n) if n <= 255 => Some(n as u8),
        _ => None,
    }
}

/// The integer of 32 bits that a value is.
fn word(value: &Node) -> Option<u32>
    ensures { result ≡ u32_of (data_of value.now) }
{
    match value.as_u64() {
        Some(n) if n <= 4294967295 => Some(n as u32),
        _ => None,
    }
}

/// The same, where it isn't 0.
#[tactic(auto, using(crate::proofs::Counts::nonzero_is))]
fn count(value: &Node) -> Option<NonZeroU32>
    ensures { result ≡ nonzero_of (data_of value.now) }
{
    match word(value) {
        Some(n) => NonZeroU32::new(n),
        None => None,
    }
}

impl<R: Copy> FromJson<R> for bool {
    ghost stands_for = { as_bool };

    fn from_json(_: R, held: Held) -> Result<Self, ReadError> {
        match held.value.as_bool() {
            Some(truth) => Ok(truth),
            None => Err(ReadError::expected(held.alloc, "true or false")),
        }
    }
}

impl<R: Copy> FromJson<R> for u8 {
    ghost stands_for = { u8_of };

    fn from_json(_: R, held: Held) -> Result<Self, ReadError> {
        match byte(held.value) {
            Some(n) => Ok(n),
            None => Err(ReadError::expected(held.alloc, "an integer from 0 to 255")),
        }
    }
}

impl<R: Copy> FromJson<R> for u32 {
    ghost stands_for = { u32_of };

    fn from_json(_: R, held: Held) -> Result<Self, ReadError> {
        match word(held.value) {
            Some(n) => Ok(n),
            None => Err(ReadError::expected(held.alloc, "an integer from 0 to 4294967295")),
        }
    }
}

impl<R: Copy> FromJson<R> for u64 {
    ghost stands_for = { u64_of };

    fn from_json(_: R, held: Held) -> Result<Self, ReadError> {
        match held.value.as_u64() {
            Some(n) => Ok(n),
            None => Err(ReadError::expected(
                held.alloc,
                "an integer from 0 to 18446744073709551615",
            )),
        }
    }
}

impl<R: Copy> FromJson<R> for i32 {
    ghost stands_for = { i32_of };

    fn from_json(_: R, held: Held) -> Result<Self, ReadError> {
        match held.value.as_i64() {
            Some(n) if -2147483648 <= n && n <= 2147483647 => Ok(n as i32),
            _ => Err(ReadError::expected(held.alloc, "an integer from -2147483648 to 2147483647")),
        }
    }
}

impl<R: Copy> FromJson<R> for NonZeroU32 {
    ghost stands_for = { nonzero_of };

    fn from_json(_: R, held: Held) -> Result<Self, ReadError> {
        match count(held.value) {
            Some(n) => Ok(n),
            None => Err(ReadError::expected(held.alloc, "an integer from 1 to 4294967295")),
        }
    }
}

/// A text, whatever it is.
impl<R: Copy> FromJson<R> for Name {
    ghost stands_for = { as_str };

    fn from_json(_: R, held: Held) -> Result<Self, ReadError> {
        match held.value.as_str() {
            Some(text) => match String::from_str(held.alloc, text) {
                Ok(name) => Ok(Name::from(name)),
                Err(_) => Err(ReadError::Memory),
            },
            None => Err(ReadError::expected(held.alloc, "a text")),
        }
    }
}

/// A handle is its index, which need not be in range.
impl<R: Copy, T> FromJson<R> for Handle<T> {
    ghost stands_for = { u32_of };

    fn from_json(reader: R, held: Held) -> Result<Self, ReadError> {
        match u32::from_json(reader, held) {
            Ok(index) => Ok(Handle::new(index)),
            Err(error) => Err(error),
        }
    }
}
