//! The words of a text.

ghost use Rattle.std.specs.Prelude.{◌≡◌, MatchOption};
ghost use Rattle.std.specs.List.{prefix_len};
ghost use Rattle.case_notation.specs.Scanning.{CutAtSpace, FirstWord, NoWord};
ghost use Rattle.case_notation.specs.Words.{is_space};

/// Whether a byte stands between words: a space, a tab, a carriage return or a newline.
fn is_space(byte: u8) -> bool
    ensures { result ≡ is_space byte }
{
    byte == b' ' || byte == b'\t' || byte == b'\r' || byte == b'\n'
}

/// How much white space is in front.
#[inline(always)]
fn space_in_front(text: &[u8]) -> usize
    ensures { result ≡ prefix_len is_space text.now }
{
    for (i, byte) in text.iter().enumerate() {
        if !is_space(*byte) {
            return i;
        }
    }
    text.len()
}

/// What comes before the first white space, and what comes after it.
#[inline(always)]
fn cut_at_space(text: &[u8]) -> (&[u8], &[u8])
    ensures { CutAtSpace text.now result.0.now result.1.now }
{
    for (i, byte) in text.iter().enumerate() {
        if is_space(*byte) {
            let (word, _) = text.split_at(i);
            let (_, after) = text.split_at(i + 1);
            return (word, after);
        }
    }
    text.split_at(text.len())
}

/// The first word, and what comes after it and the white space that ends it.
#[inline(always)]
pub(crate) fn first_word(text: &[u8]) -> Option<(&[u8], &[u8])>
    ensures { MatchOption result (NoWord text.now) (λ p. FirstWord text.now p.0.now p.1.now) }
{
    let (_, text) = text.split_at(space_in_front(text));
    let (word, after) = cut_at_space(text);
    if word.is_empty() {
        return None;
    }
    Some((word, after))
}
