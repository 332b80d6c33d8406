//! Lists, arrays of a fixed length, and what may be null.

ghost use Rattle.std.specs.Prelude.{◌≡◌, option_map};
ghost use Rattle.serde_json.specs.Find.{as_array};
ghost use Rattle.json_nodes.specs.Nodes.{data_of, items_of};
ghost use Rattle.json_values.specs.Form.{list_of, optional, pair_in, triple_in, two_of, three_of};
ghost use Rattle.json_values.specs.Reads.{ReadsAs};
ghost use Rattle.json_values.specs.ReadsFields.{ReadsTwo, ReadsThree};

use crate::error::ReadError;
use crate::from_json::{FromJson, Held, read_at};
use ir_arena::{Arena, Sequence, Span, Tagged};
use json_nodes::{Items, Node, Step};
use std::alloc::Global;

/// The values of a list.
pub fn elements<'v>(alloc: Global, value: &Node<'v>) -> Result<Items<'v>, ReadError>
    ensures { ReadsAs items_of (as_array (data_of value.now)) result }
{
    match value.items() {
        Some(items) => Ok(items),
        None => Err(ReadError::expected(alloc, "a list")),
    }
}

/// The list without room for more items, as few come where blocks lie in one another.
pub fn fitted<T>(list: Sequence<T>) -> Sequence<T>
    ensures { result ≡ list }
{
    let mut items = list.into_vec();
    items.shrink_to_fit();
    Sequence::from(items)
}

/// A list, item by item.
impl<R: Copy, T: FromJson<R>> FromJson<R> for Sequence<T> {
    ghost stands_for = { list_of T.stands_for };

    fn from_json(reader: R, held: Held) -> Result<Self, ReadError> {
        let mut items = match elements(held.alloc, held.value) {
            Ok(items) => items,
            Err(error) => return Err(error),
        };
        let mut list = Sequence::new(held.alloc);
        while let Some(item) = items.next() {
            match read_at(reader, held.alloc, Step::Index(list.len()), &item) {
                Ok(read) => list.push(read)?,
                Err(error) => return Err(error),
            }
        }
        Ok(fitted(list))
    }
}

/// The values of an arena, each with the span 0..0. No document has so many that an arena can't hold them.
impl<R: Copy, T: FromJson<R> + Tagged> FromJson<R> for Arena<T> {
    ghost stands_for = { list_of T.stands_for };

    fn from_json(reader: R, held: Held) -> Result<Self, ReadError> {
        let mut items = match elements(held.alloc, held.value) {
            Ok(items) => items,
            Err(error) => return Err(error),
        };
        let mut arena = Arena::new(held.alloc);
        while let Some(item) = items.next() {
            match read_at(reader, held.alloc, Step::Index(arena.len()), &item) {
                Ok(read) => {
                    if arena.is_full() {
                        return Err(ReadError::Memory);
                    }
                    arena.append(read, Span::UNDEFINED)?;
                }
                Err(error) => return Err(error),
            }
        }
        Ok(arena)
    }
}

/// Null, or a value.
impl<R: Copy, T: FromJson<R>> FromJson<R> for Option<T> {
    ghost stands_for = { optional T.stands_for };

    fn from_json(reader: R, held: Held) -> Result<Self, ReadError> {
        if held.value.is_null() {
            return Ok(None);
        }
        match T::from_json(reader, held) {
            Ok(read) => Ok(Some(read)),
            Err(error) => Err(error),
        }
    }
}

/// The items, if there are two.
fn pair_in<'v>(mut items: Items<'v>) -> Option<(Node<'v>, Node<'v>)>
    ensures { option_map (λ p. (data_of p.0, data_of p.1)) result ≡ pair_in (items_of items.entry) }
{
    let first = items.next()?;
    let second = items.next()?;
    match items.next() {
        Some(_) => None,
        None => Some((first, second)),
    }
}

/// The items, if there are three.
pub fn triple_in<'v>(mut items: Items<'v>) -> Option<(Node<'v>, Node<'v>, Node<'v>)>
    ensures { option_map (λ t. (data_of t.0, data_of t.1, data_of t.2)) result ≡ triple_in (items_of items.entry) }
{
    let first = items.next()?;
    match pair_in(items) {
        Some((second, third)) => Some((first, second, third)),
        None => None,
    }
}

/// What two items stand for.
fn read_pair<R: Copy, A: FromJson<R>, B: FromJson<R>>(
    reader: R,
    alloc: Global,
    first: &Node,
    second: &Node,
) -> Result<(A, B), ReadError>
    ensures { ReadsTwo (A.stands_for (data_of first.now)) (B.stands_for (data_of second.now)) result }
{
    match read_at(reader, alloc, Step::Index(0), first) {
        Ok(a) => match read_at(reader, alloc, Step::Index(1), second) {
            Ok(b) => Ok((a, b)),
            Err(error) => Err(error),
        },
        Err(error) => Err(error),
    }
}

/// A list of two.
impl<R: Copy, A: FromJson<R>, B: FromJson<R>> FromJson<R> for (A, B) {
    ghost stands_for = { two_of A.stands_for B.stands_for };

    fn from_json(reader: R, held: Held) -> Result<Self, ReadError> {
        match elements(held.alloc, held.value) {
            Ok(items) => match pair_in(items) {
                Some((first, second)) => read_pair(reader, held.alloc, &first, &second),
                None => Err(ReadError::expected(held.alloc, "a list of two")),
            },
            Err(error) => Err(error),
        }
    }
}

/// What three items stand for.
fn read_triple<R: Copy, A: FromJson<R>, B: FromJson<R>, C: FromJson<R>>(
    reader: R,
    alloc: Global,
    first: &Node,
    second: &Node,
    third: &Node,
) -> Result<(A, B, C), ReadError>
    ensures { ReadsThree (A.stands_for (data_of first.now)) (B.stands_for (data_of second.now))
        (C.stands_for (data_of third.now)) result }
{
    match read_pair(reader, alloc, first, second) {
        Ok((a, b)) => match read_at(reader, alloc, Step::Index(2), third) {
            Ok(c) => Ok((a, b, c)),
            Err(error) => Err(error),
        },
        Err(error) => Err(error),
    }
}

/// A list of three.
impl<R: Copy, A: FromJson<R>, B: FromJson<R>, C: FromJson<R>> FromJson<R> for (A, B, C) {
    ghost stands_for = { three_of A.stands_for B.stands_for C.stands_for };

    fn from_json(reader: R, held: Held) -> Result<Self, ReadError> {
        match elements(held.alloc, held.value) {
            Ok(items) => match triple_in(items) {
                Some((first, second, third)) => read_triple(
                    reader, held.alloc, &first, &second, &third,
                ),
                None => Err(ReadError::expected(held.alloc, "a list of three")),
            },
            Err(error) => Err(error),
        }
    }
}
