//! Numbers, by their text.

ghost use Rattle.std.specs.Prelude.{◌≡◌, ◌==◌, ◌<◌, length, slice_index, is_some, option_map, IfSome, Some, IsTrue, true, false};
ghost use Rattle.serde_json.specs.Data.{unsigned};
ghost use Rattle.serde_json.specs.Find.{as_u64, as_i64, to_float, of_float};
ghost use Rattle.serde_json.specs.Read.{number_of, number_from};
ghost use Rattle.fast_float.specs.Text.{scan};
ghost use Rattle.json_nodes.specs.Numbers.{num_of};

use fast_float::Numeral;
use std::num::{nearest_i64_to_f64, nearest_u64_to_f64};

/// A number that is in range.
#[derive(Clone, Copy, Drop)]
pub(crate) enum Number {
    /// Digits alone, whose number has 64 bits.
    Whole(u64),
    /// The same with a minus before them, other than -0.
    Negative(i64),
    /// Any other, as the nearest float.
    Float(f64),
}

/// So many digits are below 2^64, whichever they are.
const SAFE_DIGITS: usize = 19;

/// The number of a text that is digits alone, where they are few: most numbers are so.
#[inline]
fn few_digits(text: &[u8]) -> Option<u64>
    ensures { IfSome result (λ n. number_of text.now ≡ Some (unsigned n)) }
{
    if text.is_empty() || text.len() > SAFE_DIGITS {
        return None;
    }
    let mut whole = 0;
    for byte in text {
        if *byte < b'0' || *byte > b'9' {
            return None;
        }
        whole = whole * 10 + u64::from(*byte - b'0');
    }
    Some(whole)
}

/// Whether a text begins with a minus.
fn has_minus(text: &[u8]) -> bool
    ensures minus { result ≡ (slice_index text.now 0 == 45) }
    ensures some { IsTrue result → 0 < length text.now }
{
    match text.first() {
        Some(byte) => *byte == b'-',
        None => false,
    }
}

/// A float, where it is finite.
fn finite(float: f64) -> Option<Number>
    ensures { option_map num_of result ≡ of_float float }
{
    if float.is_finite() {
        Some(Number::Float(float))
    } else {
        None
    }
}

/// The number of a text with no minus.
fn positive(text: &[u8]) -> Option<Number>
    ensures { option_map num_of result ≡ number_from false (scan text.now) }
{
    let numeral = Numeral::scan(text);
    match numeral.to_u64() {
        Some(whole) => Some(Number::Whole(whole)),
        None => finite(numeral.to_float(false)),
    }
}

/// The number of a text after its minus.
fn negative(text: &[u8]) -> Option<Number>
    ensures { option_map num_of result ≡ number_from true (scan text.now) }
{
    let numeral = Numeral::scan(text);
    match numeral.to_i64(true) {
        Some(whole) if whole < 0 => Some(Number::Negative(whole)),
        _ => finite(numeral.to_float(true)),
    }
}

/// The number of any text, where it is in range.
#[inline(never)]
fn any_number(text: &str) -> Option<Number>
    ensures { option_map num_of result ≡ number_of text.now }
{
    let bytes = text.as_bytes();
    if has_minus(bytes) {
        negative(&bytes[1..])
    } else {
        positive(bytes)
    }
}

impl Number {
    /// The number of a text, where it is in range.
    #[inline]
    pub(crate) fn parse(text: &str) -> Option<Number>
        ensures { option_map num_of result ≡ number_of text.now }
    {
        match few_digits(text.as_bytes()) {
            Some(whole) => Some(Number::Whole(whole)),
            None => any_number(text),
        }
    }

    /// Whether the number of a text is in range.
    #[inline]
    pub(crate) fn is_in_range(text: &str) -> bool
        ensures { result ≡ is_some (number_of text.now) }
    {
        match few_digits(text.as_bytes()) {
            Some(_) => true,
            None => any_number(text).is_some(),
        }
    }

    /// The number, where it is whole and at least 0.
    #[inline]
    pub(crate) fn as_u64(self) -> Option<u64>
        ensures { result ≡ as_u64 (num_of self) }
    {
        match self {
            Number::Whole(whole) => Some(whole),
            _ => None,
        }
    }

    /// The number, where it is whole and has 64 bits with its sign.
    #[inline]
    pub(crate) fn as_i64(self) -> Option<i64>
        ensures { result ≡ as_i64 (num_of self) }
    {
        match self {
            Number::Whole(whole) => if whole <= i64::MAX as u64 {
                Some(whole as i64)
            } else {
                None
            },
            Number::Negative(whole) => Some(whole),
            Number::Float(_) => None,
        }
    }

    /// The nearest float.
    #[inline]
    pub(crate) fn as_f64(self) -> f64
        ensures { result ≡ to_float (num_of self) }
    {
        match self {
            Number::Whole(whole) => nearest_u64_to_f64(whole),
            Number::Negative(whole) => nearest_i64_to_f64(whole),
            Number::Float(float) => float,
        }
    }
}
