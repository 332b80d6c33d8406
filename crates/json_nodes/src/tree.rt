//! A text that was read.

ghost use Rattle.std.specs.Prelude.{◌≡◌, IfOk, IsUtf8, Some, None, Err};
ghost use Rattle.serde_json.specs.Read.{read};
ghost use Rattle.json_nodes.specs.Nodes.{data_of};

use crate::check::is_whole;
use crate::node::Node;
use json::{Error, Scratch, Tape};
use std::alloc::Global;
use std::marker::Model;

/// A text that was read. Contracts see its tokens.
#[derive(Drop)]
pub struct Tree<'a> {
    tape: Tape<'a>,
}

impl<'a> Model for Tree<'a> {
    ghost use Rattle.std.specs.Prelude.{List};
    ghost use Rattle.json.specs.Token.{Token, tokens_code};

    ghost Value = { List Token };

    ghost coded = { tokens_code };

    ghost use Rattle.json_nodes.specs.Nodes.{HoldsData};

    ghost view = { λ a. a.tape };

    ghost invariant = { λ a. HoldsData a.tape };
}

/// Why a text wasn't read.
#[derive(Clone, Copy, Debug, Drop, PartialEq, Eq)]
pub enum TextError {
    /// It isn't JSON in UTF-8 whose brackets nest at most 127 deep and whose numbers are in range.
    Invalid,
    /// There was too little memory, or the text has 4 GiB or more.
    Memory,
}

impl<'a> Tree<'a> {
    /// The value of the text.
    #[inline]
    pub fn root(&self) -> Node<'_>
        ensures { data_of result ≡ data_of self.now }
    {
        Node {
            element: self.tape.root(),
        }
    }
}

/// Reads a text in UTF-8.
fn read_text<'a>(
    alloc: Global,
    text: &'a str,
    scratch: &'a mut Scratch,
) -> Result<Tree<'a>, TextError>
    ensures ok { IfOk result (λ tree. read text.now ≡ Some (data_of tree)) }
    ensures invalid { result ≡ Err TextError.Invalid → read text.now ≡ None }
{
    match Tape::parse(text, scratch, Vec::new(alloc)) {
        Ok(tape) => {
            if !is_whole(tape.nodes()) {
                return Err(TextError::Invalid);
            }
            Ok(Tree { tape })
        }
        Err(Error::Invalid) => Err(TextError::Invalid),
        Err(_) => Err(TextError::Memory),
    }
}

/// Reads a text. `scratch` keeps the texts that have escapes, and can be used again.
pub fn read_tree<'a>(
    alloc: Global,
    text: &'a [u8],
    scratch: &'a mut Scratch,
) -> Result<Tree<'a>, TextError>
    ensures ok { IfOk result (λ tree. IsUtf8 text.now × (read text.now ≡ Some (data_of tree))) }
    ensures invalid { result ≡ Err TextError.Invalid → IsUtf8 text.now → read text.now ≡ None }
{
    match std::str::from_utf8(text) {
        Ok(valid) => read_text(alloc, valid, scratch),
        Err(_) => Err(TextError::Invalid),
    }
}
