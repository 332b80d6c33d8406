//! Reads a text as a document.

ghost use Rattle.std.specs.Prelude.{◌≡◌, ◌≤◌, length};
ghost use Rattle.json_nodes.specs.Nodes.{data_of};
ghost use Rattle.json_document.specs.Ids.{IsComplete, IsIdOf, id_in};
ghost use Rattle.json_document.specs.ReadsDocument.{ReadsDocument};
ghost use Rattle.json_document.specs.Whole.{document_of};
ghost use Rattle.json_values.specs.Reads.{ReadsMeaning};

use crate::document::{Document, Documents};
use crate::id::{Id, id_in};
use json::Scratch;
use json_nodes::{TextError, Tree, read_tree};
use json_values::{FromJson, Held, ReadError};
use std::alloc::Global;

/// The most bytes that a document may have.
pub const MOST_BYTES: usize = 16777216;

/// The most bytes of a text whose memory is kept for the next one.
const MOST_KEPT: usize = 1048576;

/// What was read of a text.
#[derive(Drop)]
pub struct Reading {
    /// What the document is called, where the text says so. A text that is no document may have an id too.
    pub id: Option<Id>,
    pub document: Result<Document, ReadError>,
}

/// Reads the value of a text as a document, and its id.
fn read_value(alloc: Global, tree: &Tree) -> Reading
    ensures document { ReadsMeaning (document_of (data_of tree.now)) result.document }
    ensures id { IsComplete result.document → result.id ≡ id_in (data_of tree.now) }
{
    let value = tree.root();
    let held = Held::new(alloc, &value);
    match id_in(alloc, &value) {
        Ok(id) => Reading {
            id,
            document: Document::from_json(Documents, held),
        },
        Err(_) => Reading {
            id: None,
            document: Err(ReadError::Memory),
        },
    }
}

/// Reads a text of so many bytes at most as a document, and its id.
#[tactic(auto, using(crate::proofs::Texts::reads_value, crate::proofs::Texts::has_id))]
fn read_bounded(alloc: Global, text: &[u8], scratch: &mut Scratch) -> Reading
    requires { length text.now ≤ 16777216 }
    ensures document { ReadsDocument text.now result.document }
    ensures id { IsComplete result.document → IsIdOf text.now result.id }
{
    match read_tree(alloc, text, scratch) {
        Ok(tree) => read_value(alloc, &tree),
        Err(TextError::Memory) => Reading {
            id: None,
            document: Err(ReadError::Memory),
        },
        Err(TextError::Invalid) => Reading {
            id: None,
            document: Err(ReadError::expected(
                alloc,
                "JSON in UTF-8, whose brackets nest at most 127 deep",
            )),
        },
    }
}

/// Reads a text as a document, and its id.
///
/// An Err says where reading stopped and what was expected there, or is out of memory. The text is JSON in UTF-8, of at
/// most [`MOST_BYTES`] bytes. docs/MODULES.md has its form. `scratch` is memory that reading needs. What it takes for a
/// text of at most 1048576 bytes it keeps for the next one.
pub fn read_text(alloc: Global, text: &[u8], scratch: &mut Scratch) -> Reading
    ensures document { ReadsDocument text.now result.document }
    ensures id { IsComplete result.document → IsIdOf text.now result.id }
{
    if text.len() > MOST_BYTES {
        let expected = "a document of at most 16777216 bytes";
        return Reading {
            id: None,
            document: Err(ReadError::expected(alloc, expected)),
        };
    }
    let reading = read_bounded(alloc, text, scratch);
    if text.len() > MOST_KEPT {
        *scratch = Scratch::new(alloc);
    }
    reading
}
