//! The values of a Switch's cases so far, as a set.

ghost use Rattle.std.specs.Prelude.{◌≡◌, ◌∷◌, ◌++◌, [], List, true, not, IfOk, slice_get};
ghost use Rattle.std.specs.List.{list_any};
ghost use Rattle.check_flow.specs.Switch.{is_default, same_value};
ghost use Rattle.check_flow.specs.walk.ValueSet.{HasValues, found, number_of, start_of};
ghost use Rattle.ir_statements.specs.declared.operations.SwitchValue.{SwitchValue};

use crate::switch::is_default;
use ir_statements::operations::SwitchValue;
use std::alloc::{AllocError, Global};
use std::collections::BTreeSet;

/// A value stands at one of so many places, from the one on that its number gives.
const NEAR: usize = 8;

/// A set of case values. Each place holds one of them, or the default where it is free.
///
/// A value stands at the first place near the one that its number gives. Where others have all of these, it is kept in an
/// ordered set, so that no choice of values takes more than their number times its logarithm.
#[derive(Drop)]
pub(crate) struct ValueSet {
    places: Vec<SwitchValue>,
    /// Numbers give places below 2 to the power of this.
    bits: u32,
    /// These bits of a sum are its place.
    mask: u32,
    others: BTreeSet<SwitchValue>,
}

/// What was found near the place of a value: itself, a free place, or neither.
#[derive(Clone, Copy)]
pub(crate) enum Found {
    Here,
    Free(usize),
    Nowhere,
}

impl ValueSet {
    /// An empty set with places for so many values, of which at least half stay free.
    ///
    /// An Err is out of memory.
    pub(crate) fn new(alloc: Global, values: usize) -> Result<ValueSet, AllocError>
        ensures { IfOk result (λ set. HasValues set []) }
    {
        let bits = 65u32.wrapping_sub(values.leading_zeros());
        let mask = 1u32.wrapping_shl(bits).wrapping_sub(1);
        let mut places = Vec::new(alloc);
        places.resize(mask as usize + 1 + NEAR, SwitchValue::Default)?;
        Ok(ValueSet {
            places,
            bits,
            mask,
            others: BTreeSet::new(alloc),
        })
    }

    /// Adds a value, and answers whether it is new.
    ///
    /// An Err is out of memory.
    pub(crate) fn insert(&mut self, value: SwitchValue) -> Result<bool, AllocError>
        ensures new { IfOk result (λ is_new. (earlier : List SwitchValue) → HasValues self.old earlier →
            is_new ≡ not (list_any (same_value value) earlier)) }
        ensures kept { IfOk result (λ is_new. (earlier : List SwitchValue) → HasValues self.old earlier → is_new ≡ true →
            HasValues self.new (earlier ++ value ∷ [])) }
    {
        match self.find(value) {
            Found::Here => Ok(false),
            Found::Free(place) => {
                self.places[place] = value;
                Ok(true)
            }
            Found::Nowhere => Ok(self.others.insert(value)?),
        }
    }

    /// Looks for a value near its place.
    fn find(&self, value: SwitchValue) -> Found
        ensures { result ≡ found self.now value }
    {
        if is_default(value) {
            return Found::Nowhere;
        }
        let start = start_of(self.bits, self.mask, number_of(value)) as usize;
        for step in 0..NEAR {
            let place = start + step;
            let Some(stands) = value_at(self.places.as_slice(), place) else {
                return Found::Nowhere;
            };
            if same_value(stands, value) {
                return Found::Here;
            }
            if is_default(stands) {
                return Found::Free(place);
            }
        }
        Found::Nowhere
    }
}

/// The place that a number gives: the sum of its lowest three digits of so many bits. So numbers in a row have places in a
/// row, and multiples of a power of 2 seldom meet.
fn start_of(bits: u32, mask: u32, number: u32) -> u32
    ensures { result ≡ start_of bits mask number }
{
    let high = number.wrapping_shr(bits);
    let sum = number.wrapping_add(high);
    sum.wrapping_add(high.wrapping_shr(bits)) & mask
}

/// What stands at a place, if the list has this place.
fn value_at(places: &[SwitchValue], place: usize) -> Option<SwitchValue>
    ensures { result ≡ slice_get places.now place }
{
    places.get(place).copied()
}

/// The number of a value.
fn number_of(value: SwitchValue) -> u32
    ensures { result ≡ number_of value }
{
    match value {
        SwitchValue::I32(number) => number.cast_unsigned(),
        SwitchValue::U32(number) => number,
        SwitchValue::Default => 0,
    }
}

/// Whether two values are the same: both signed, both unsigned or both the default.
fn same_value(one: SwitchValue, other: SwitchValue) -> bool
    ensures { result ≡ same_value one other }
{
    match (one, other) {
        (SwitchValue::I32(one), SwitchValue::I32(other)) => one == other,
        (SwitchValue::U32(one), SwitchValue::U32(other)) => one == other,
        (SwitchValue::Default, SwitchValue::Default) => true,
        _ => false,
    }
}
