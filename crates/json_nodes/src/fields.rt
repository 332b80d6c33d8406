//! The fields of an object as they stand in the text, where a name may come again.

ghost use Rattle.std.specs.Prelude.{◌≡◌, map, None, Some, MatchOption};
ghost use Rattle.json.specs.Json.{Json};
ghost use Rattle.json.specs.Json as spec;
ghost use Rattle.json.specs.Find.{BeginsWith, InMembers, Finds};
ghost use Rattle.json_nodes.specs.Fields.{is_among};
ghost use Rattle.json_nodes.specs.Written.{last_value, only_field, are_among, are_in_order};

use json::{Element, Members};

/// The last value of a name, where no other name comes after its first value.
#[inline]
fn last_value<'v>(
    name: &str,
    first: Element<'v, 'v>,
    members: Members<'v, 'v>,
) -> Option<Element<'v, 'v>>
    ensures { (j : Json) (ms : spec.Members) → BeginsWith first.entry j → InMembers members.entry ms
        → Finds result (last_value name.now j ms) }
{
    let mut rest = members;
    let mut last = first;
    while let Some((key, element)) = rest.next() {
        if key != name {
            return None;
        }
        last = element;
    }
    Some(last)
}

/// The only name, and its last value.
#[inline]
pub(crate) fn only_field<'v>(members: Members<'v, 'v>) -> Option<(&'v str, Element<'v, 'v>)>
    ensures { (ms : spec.Members) → InMembers members.entry ms
        → MatchOption result (only_field ms ≡ None)
        (λ f. (j : Json) × (only_field ms ≡ Some (f.0.now, j)) × BeginsWith f.1 j) }
{
    let mut rest = members;
    match rest.next() {
        Some((name, first)) => match last_value(name, first, rest) {
            Some(last) => Some((name, last)),
            None => None,
        },
        None => None,
    }
}

/// Whether the name is one of these.
#[inline]
fn is_among(name: &str, names: &[&str]) -> bool
    ensures { result ≡ is_among name.now (map (λ n. n.now) names.now) }
{
    for other in names {
        if name == *other {
            return true;
        }
    }
    false
}

/// Whether the name of each field is one of these.
pub(crate) fn are_among(members: Members<'_, '_>, names: &[&str]) -> bool
    ensures { (ms : spec.Members) → InMembers members.entry ms
        → result ≡ are_among (map (λ n. n.now) names.now) ms }
{
    let mut rest = members;
    while let Some((key, _)) = rest.next() {
        if !is_among(key, names) {
            return false;
        }
    }
    true
}

/// Whether the names of the fields are these, in this order, and no other field comes.
pub(crate) fn are_in_order(members: Members<'_, '_>, names: &[&str]) -> bool
    ensures { (ms : spec.Members) → InMembers members.entry ms
        → result ≡ are_in_order (map (λ n. n.now) names.now) ms }
{
    let mut rest = members;
    for name in names {
        match rest.next() {
            Some((key, _)) => {
                if key != *name {
                    return false;
                }
            }
            None => return false,
        }
    }
    rest.next().is_none()
}

/// The lesser of two names, by their bytes.
fn lesser<'v>(least: Option<&'v str>, name: &'v str) -> &'v str {
    match least {
        Some(other) if other < name => other,
        _ => name,
    }
}

/// The least by its bytes of the names that are none of these.
pub(crate) fn least_other<'v>(members: Members<'v, 'v>, names: &[&str]) -> Option<&'v str> {
    let mut rest = members;
    let mut least = None;
    while let Some((key, _)) = rest.next() {
        if !is_among(key, names) {
            least = Some(lesser(least, key));
        }
    }
    least
}
