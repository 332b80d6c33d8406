//! The values of cases.

ghost use Rattle.std.specs.Prelude.{◌≡◌, ◌<◌, ◌≤◌, ◌-◌, ◌^◌, MatchOption, ℕ, ℤ, IfSome, IfNone, FitsSigned, decimal};
ghost use Rattle.std.specs.Fmt.{signed_decimal};
ghost use Rattle.std.specs.Int.{w32};
ghost use Rattle.ir_statements.specs.declared.operations.SwitchValue as value;
ghost use Rattle.case_notation.specs.Text.{IsValueText};
ghost use Rattle.case_notation.specs.Lookup.{begins_number, begins_signed};

use ir_statements::operations::SwitchValue;
use std::str;

/// Whether a text begins as that of a number does: with a digit, which is no zero unless it stands alone.
fn begins_number(text: &[u8]) -> bool
    ensures { result ≡ begins_number text.now }
{
    match text {
        [b'0'] => true,
        [first, ..] => (b'1'..=b'9').contains(first),
        [] => false,
    }
}

/// The same where a `-` may stand before a number that isn't 0.
fn begins_signed(text: &[u8]) -> bool
    ensures { result ≡ begins_signed text.now }
{
    match text {
        [b'-', first, ..] => (b'1'..=b'9').contains(first),
        _ => begins_number(text),
    }
}

/// The value of a digit.
#[inline]
fn digit_of(byte: u8) -> Option<u8>
    ensures { MatchOption result (48 ≤ byte → byte ≤ 57 → ⊥) (λ d. (48 ≤ byte) × (byte ≤ 57) × (d ≡ byte - 48)) }
{
    match byte {
        b'0'..=b'9' => Some(byte - b'0'),
        _ => None,
    }
}

/// The number that this is the decimal text of.
fn unsigned_of(text: &[u8]) -> Option<u32>
    ensures found { IfSome result (λ n. (n < 2 ^ 32) × (text.now ≡ decimal n)) }
    ensures none { IfNone result ((n : ℕ) → n < 2 ^ 32 → text.now ≡ decimal n → ⊥) }
{
    if !begins_number(text) {
        return None;
    }
    let mut number = 0;
    for byte in text {
        let Some(digit) = digit_of(*byte) else {
            return None;
        };
        number = number * 10 + digit as u64;
        if number > u32::MAX as u64 {
            return None;
        }
    }
    Some(number as u32)
}

/// The same, with a `-` before a number below zero.
fn signed_of(text: &[u8]) -> Option<i32>
    ensures found { IfSome result (λ z. FitsSigned w32 z × (text.now ≡ signed_decimal z)) }
    ensures none { IfNone result ((z : ℤ) → FitsSigned w32 z → text.now ≡ signed_decimal z → ⊥) }
{
    if !begins_signed(text) {
        return None;
    }
    match str::from_utf8(text) {
        Ok(text) => text.parse().ok(),
        Err(_) => None,
    }
}

/// The value that this is the text of.
pub(crate) fn value_of(text: &[u8]) -> Option<SwitchValue>
    ensures found { IfSome result (λ v. IsValueText v text.now) }
    ensures none { IfNone result ((v : value.SwitchValue) → IsValueText v text.now → ⊥) }
{
    if text == b"default".as_slice() {
        return Some(SwitchValue::Default);
    }
    match text.split_last() {
        Some((last, number)) => {
            if *last == b'i' {
                signed_of(number).map(SwitchValue::I32)
            } else {
                unsigned_of(text).map(SwitchValue::U32)
            }
        }
        None => None,
    }
}
