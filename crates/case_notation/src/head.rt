//! The options of a case.

ghost use Rattle.std.specs.Prelude.{◌≡◌, true, MatchOption, None, Some};
ghost use Rattle.case_notation.specs.Lookup.{options_of, take_option};
ghost use Rattle.case_notation.specs.Words.{IsPrintable, words_of};

use crate::words::first_word;

/// Which flags the options leave on.
#[derive(Clone, Copy, PartialEq, Eq, Debug)]
pub(crate) struct OptionFlags {
    pub expressions: bool,
    pub blocks: bool,
}

/// The flags after one option more, which none of those before it was.
#[tactic(auto, unfolding(crate::specs::Lookup::take_option))]
fn take_option(flags: OptionFlags, option: &[u8]) -> Option<OptionFlags>
    ensures { MatchOption result (take_option flags.expressions flags.blocks option.now ≡ None)
        (λ f. take_option flags.expressions flags.blocks option.now ≡ Some (f.expressions, f.blocks)) }
{
    let OptionFlags {
        expressions,
        blocks,
    } = flags;
    if option == b"-expressions".as_slice() {
        if !expressions {
            return None;
        }
        Some(OptionFlags {
            expressions: false,
            blocks,
        })
    } else if option == b"-blocks".as_slice() {
        if !blocks {
            return None;
        }
        Some(OptionFlags {
            expressions,
            blocks: false,
        })
    } else {
        None
    }
}

/// The flags that the options at the front of a text leave on, and what follows the `:` that ends them.
pub(crate) fn options_of(text: &[u8]) -> Option<(OptionFlags, &[u8])>
    ensures { MatchOption result (options_of true true (words_of text.now) ≡ None)
        (λ o. (options_of true true (words_of text.now) ≡ Some (o.0.expressions, o.0.blocks, words_of o.1.now))
        × (IsPrintable o.1.now → IsPrintable text.now)) }
{
    let mut flags = OptionFlags {
        expressions: true,
        blocks: true,
    };
    let mut rest = text;
    while let Some((word, after)) = first_word(rest) {
        rest = after;
        if word == b":".as_slice() {
            return Some((flags, rest));
        }
        let Some(next) = take_option(flags, word) else {
            return None;
        };
        flags = next;
    }
    None
}
