//! The tokens of the notation.

ghost use Rattle.std.specs.Prelude.{◌≡◌, ◌∷◌, IfSome, IfNone, Some, None, if◌then◌else◌};
ghost use Rattle.std.specs.Str.{bytes_eq};
ghost use Rattle.case_notation.specs.declared.bench.Bench.TheVariants as bench;
ghost use Rattle.case_notation.specs.declared.token.Token as declared;
ghost use Rattle.case_notation.specs.Lookup.{lookup, shared_words, own_words};
ghost use Rattle.case_notation.specs.Text.{IsTokenText};

use crate::bench::Bench;
use crate::value::value_of;
use ir_statements::operations::SwitchValue;

/// What a word after the options means.
#[derive(Clone, Copy, PartialEq, Eq, Debug)]
pub(crate) enum Token {
    Emit,
    /// `..`, between the two ends of a range.
    To,
    Block,
    If,
    Switch,
    Fall,
    Loop,
    BreakIf,
    Break,
    Continue,
    Return,
    Kill,
    Store,
    Barrier,
    Call,
    /// `f`, the function that is called.
    Callee,
    /// `->`, before the result of a call.
    Arrow,
    /// `{`
    Open,
    /// `}`
    Close,
    /// An expression of the bench, by its index.
    Name(u8),
    /// The value of a case.
    Value(SwitchValue),
}

/// The token, where this rest of a word is the text.
#[inline(always)]
fn token_if(rest: &[u8], text: &[u8], token: Token) -> Option<Token>
    ensures { result ≡ (if bytes_eq rest.now text.now then Some token else None) }
{
    if rest == text { Some(token) } else { None }
}

/// What a word means in a case of any bench, where it is no value.
#[inline]
fn shared_meaning_of(word: &[u8]) -> Option<Token>
    ensures { result ≡ lookup shared_words word.now }
{
    let Some((first, rest)) = word.split_first() else {
        return None;
    };
    match *first {
        b'{' => token_if(rest, b"".as_slice(), Token::Open),
        b'}' => token_if(rest, b"".as_slice(), Token::Close),
        b't' => token_if(rest, b"".as_slice(), Token::Name(0)),
        b'u' => token_if(rest, b"".as_slice(), Token::Name(1)),
        b'v' => token_if(rest, b"".as_slice(), Token::Name(4)),
        b'x' => token_if(rest, b"1".as_slice(), Token::Name(5)),
        b'i' => behind_i(rest),
        b'e' => behind_e(rest),
        b's' => behind_s(rest),
        b'b' => behind_b(rest),
        b'.' => token_if(rest, b".".as_slice(), Token::To),
        b'r' => token_if(rest, b"eturn".as_slice(), Token::Return),
        b'l' => token_if(rest, b"oop".as_slice(), Token::Loop),
        b'f' => token_if(rest, b"all".as_slice(), Token::Fall),
        b'c' => token_if(rest, b"ontinue".as_slice(), Token::Continue),
        b'k' => token_if(rest, b"ill".as_slice(), Token::Kill),
        _ => None,
    }
}

/// What a word means that is this after an `i`.
#[inline(always)]
fn behind_i(rest: &[u8]) -> Option<Token>
    ensures { result ≡ lookup shared_words (105 ∷ rest.now) }
{
    if rest == b"f".as_slice() {
        Some(Token::If)
    } else {
        token_if(rest, b"".as_slice(), Token::Name(2))
    }
}

/// What a word means that is this after an `e`.
#[inline(always)]
fn behind_e(rest: &[u8]) -> Option<Token>
    ensures { result ≡ lookup shared_words (101 ∷ rest.now) }
{
    if rest == b"mit".as_slice() {
        Some(Token::Emit)
    } else {
        token_if(rest, b"1".as_slice(), Token::Name(3))
    }
}

/// What a word means that is this after an `s`.
#[inline(always)]
fn behind_s(rest: &[u8]) -> Option<Token>
    ensures { result ≡ lookup shared_words (115 ∷ rest.now) }
{
    let Some((second, rest)) = rest.split_first() else {
        return None;
    };
    match *second {
        b't' => token_if(rest, b"ore".as_slice(), Token::Store),
        b'w' => token_if(rest, b"itch".as_slice(), Token::Switch),
        _ => None,
    }
}

/// What a word means that is this after a `b`.
#[inline(always)]
fn behind_b(rest: &[u8]) -> Option<Token>
    ensures { result ≡ lookup shared_words (98 ∷ rest.now) }
{
    let Some((second, rest)) = rest.split_first() else {
        return None;
    };
    match *second {
        b'l' => token_if(rest, b"ock".as_slice(), Token::Block),
        b'r' => behind_br(rest),
        b'a' => token_if(rest, b"rrier".as_slice(), Token::Barrier),
        _ => None,
    }
}

/// What a word means that is this after `br`.
#[inline(always)]
fn behind_br(rest: &[u8]) -> Option<Token>
    ensures { result ≡ lookup shared_words (98 ∷ 114 ∷ rest.now) }
{
    if rest == b"eak".as_slice() {
        Some(Token::Break)
    } else {
        token_if(rest, b"eak_if".as_slice(), Token::BreakIf)
    }
}

/// What a word means that is none of those, and no value, in a case of the bench.
#[inline(always)]
fn own_meaning_of(bench: Bench, word: &[u8]) -> Option<Token>
    ensures { result ≡ lookup (own_words bench) word.now }
{
    match bench {
        Bench::P => None,
        Bench::C => call_meaning_of(word),
        Bench::D => token_if(word, b"e2".as_slice(), Token::Name(6)),
    }
}

/// What a word means that only the bench with calls has.
#[inline(never)]
fn call_meaning_of(word: &[u8]) -> Option<Token>
    ensures { result ≡ lookup (own_words bench.C) word.now }
{
    if word == b"call".as_slice() {
        Some(Token::Call)
    } else if word == b"f".as_slice() {
        Some(Token::Callee)
    } else if word == b"->".as_slice() {
        Some(Token::Arrow)
    } else {
        token_if(word, b"r1".as_slice(), Token::Name(6))
    }
}

/// What a word means in a case of the bench.
#[inline]
pub(crate) fn token_of(bench: Bench, word: &[u8]) -> Option<Token>
    ensures found { IfSome result (λ t. IsTokenText bench t word.now) }
    ensures none { IfNone result ((t : declared.Token) → IsTokenText bench t word.now → ⊥) }
{
    if let Some(token) = shared_meaning_of(word) {
        return Some(token);
    }
    if let Some(token) = own_meaning_of(bench, word) {
        return Some(token);
    }
    value_of(word).map(Token::Value)
}
