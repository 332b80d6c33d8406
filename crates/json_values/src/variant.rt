//! Variants: a name alone, or an object with one member, a name and what it holds.

ghost use Rattle.std.specs.Prelude.{◌≡◌, [], option_map, option_and_then};
ghost use Rattle.serde_json.specs.Find.{as_str};
ghost use Rattle.json_nodes.specs.Nodes.{data_of};
ghost use Rattle.json_values.specs.Form.{given, lookup, written_variant_of};
ghost use Rattle.json_values.specs.Reads.{ReadsMeaning, rows_of};
ghost use Rattle.json_values.specs.Variants.{either, variant_of};
ghost use Rattle.json_values.specs.ReadsVariants.{ReadsVariant, tag_of};

use crate::error::ReadError;
use crate::expected::{expected_name, expected_variant};
use crate::from_json::Held;
use json_nodes::Node;
use std::alloc::Global;

/// What stands beside a name in a table, the first time, with the name as the table has it.
fn look_up<T: Copy>(table: &[(&'static str, T)], name: &str) -> Option<(&'static str, T)>
    ensures { option_map (λ r. r.1) result ≡ lookup (rows_of table.now) name.now }
{
    for row in table {
        if name == row.0 {
            return Some((row.0, row.1));
        }
    }
    None
}

/// What a text names in a table.
pub fn read_name<T: Copy>(
    alloc: Global,
    value: &Node,
    table: &[(&'static str, T)],
) -> Result<T, ReadError>
    ensures { ReadsMeaning (option_and_then (lookup (rows_of table.now)) (as_str (data_of value.now))) result }
{
    match value.as_str() {
        Some(name) => match look_up(table, name) {
            Some((_, named)) => Ok(named),
            None => Err(expected_name(alloc, table)),
        },
        None => Err(expected_name(alloc, table)),
    }
}

/// A variant before its name is looked up.
#[derive(Drop)]
pub(crate) enum VariantForm<'v> {
    Plain(&'v str),
    Holding(&'v str, Node<'v>),
}

/// The variant that a value is, if it can be one.
fn tag<'v>(value: &Node<'v>) -> Option<VariantForm<'v>>
    ensures { option_map tag_of result ≡ written_variant_of (data_of value.now) }
{
    if let Some(name) = value.as_str() {
        return Some(VariantForm::Plain(name));
    }
    match value.only_field() {
        Some((name, inner)) => Some(VariantForm::Holding(name, inner)),
        None => None,
    }
}

/// A variant: one that holds nothing, as the table of these has it, or one that holds something, which is still to be
/// read, with its name.
#[derive(Drop)]
pub enum Variant<'v, P, H> {
    Plain(P),
    Holding(H, &'static str, Node<'v>),
}

/// The variant that a value is, by a table of those that hold nothing and one of those that hold something.
pub fn read_variant<'v, P: Copy, H: Copy>(
    alloc: Global,
    value: &Node<'v>,
    plain: &[(&'static str, P)],
    holding: &[(&'static str, H)],
) -> Result<Variant<'v, P, H>, ReadError>
    ensures { ReadsVariant (variant_of (rows_of plain.now) (rows_of holding.now) (data_of value.now)) result }
{
    match tag(value) {
        Some(VariantForm::Plain(name)) => {
            if let Some((_, found)) = look_up(plain, name) {
                return Ok(Variant::Plain(found));
            }
        }
        Some(VariantForm::Holding(name, inner)) => {
            if let Some((name, found)) = look_up(holding, name) {
                return Ok(Variant::Holding(found, name, inner));
            }
        }
        None => {}
    }
    Err(expected_variant(alloc, plain, holding))
}

/// An enum with variants that hold something, each of which has a name.
pub trait Holding<N, R: Copy>: Drop {
    ghost use Rattle.std.specs.Prelude.{Option};
    ghost use Rattle.serde_json.specs.Data.{Data};

    /// What the variant of this name stands for, by what it holds.
    ghost held_of: { N → Data → Option Self };

    /// The variant of this name.
    fn read_held(name: N, reader: R, held: Held) -> Result<Self, ReadError>
        ensures { ReadsMeaning (held_of name (data_of held.entry.value.now)) result };
}

/// A variant by its name alone, which a table has with the variant, or by its name and what it holds.
pub fn read_either<E: Holding<N, R> + Copy, N: Copy, R: Copy>(
    reader: R,
    outer: Held,
    plain: &[(&'static str, E)],
    holding: &[(&'static str, N)],
) -> Result<E, ReadError>
    ensures { ReadsMeaning (given (variant_of (rows_of plain.now) (rows_of holding.now) (data_of outer.entry.value.now))
        (either E.held_of)) result }
{
    match read_variant(outer.alloc, outer.value, plain, holding) {
        Ok(Variant::Plain(found)) => Ok(found),
        Ok(Variant::Holding(found, name, inner)) => {
            let held = Held {
                alloc: outer.alloc,
                value: &inner,
                variant: Some(name),
            };
            E::read_held(found, reader, held)
        }
        Err(error) => Err(error),
    }
}

/// A variant by its name and what it holds, of an enum that has no others.
pub fn read_holding<E: Holding<N, R>, N: Copy, R: Copy>(
    reader: R,
    outer: Held,
    holding: &[(&'static str, N)],
) -> Result<E, ReadError>
    ensures { ReadsMeaning (given (variant_of [] (rows_of holding.now) (data_of outer.entry.value.now))
        (either E.held_of)) result }
{
    if let Some(VariantForm::Holding(name, inner)) = tag(outer.value) {
        if let Some((name, found)) = look_up(holding, name) {
            let held = Held {
                alloc: outer.alloc,
                value: &inner,
                variant: Some(name),
            };
            return E::read_held(found, reader, held);
        }
    }
    let none: [(&'static str, ()); 0] = [];
    Err(expected_variant(outer.alloc, &none, holding))
}
