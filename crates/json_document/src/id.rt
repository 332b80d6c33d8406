//! Ids of documents.

ghost use Rattle.std.specs.Prelude.{◌≡◌, IfOk};
ghost use Rattle.json_nodes.specs.Nodes.{data_of};
ghost use Rattle.json_document.specs.Ids.{id_in, id_of};

use crate::document::Documents;
use ir_leaves::Name;
use json_nodes::Node;
use json_values::{FromJson, Held, ReadError};
use std::alloc::{AllocError, Global};

/// What a document is called by whoever sent it: its verdict says so too.
#[derive(Debug, Drop)]
pub enum Id {
    Text(Name),
    Integer(i64),
}

impl FromJson<Documents> for Id {
    ghost stands_for = { id_of };

    fn from_json(_: Documents, held: Held) -> Result<Self, ReadError> {
        if held.value.as_str().is_some() {
            return match Name::from_json(Documents, held) {
                Ok(text) => Ok(Id::Text(text)),
                Err(error) => Err(error),
            };
        }
        match held.value.as_i64() {
            Some(number) => Ok(Id::Integer(number)),
            None => Err(ReadError::expected(
                held.alloc,
                "a text, or an integer from -9223372036854775808 to 9223372036854775807",
            )),
        }
    }
}

/// The id that a value has, if it has one. An Err is out of memory.
pub(crate) fn id_in(alloc: Global, value: &Node) -> Result<Option<Id>, AllocError>
    ensures { IfOk result (λ id. id ≡ id_in (data_of value.now)) }
{
    match value.get("id") {
        Some(inner) => {
            let held = Held::new(alloc, &inner);
            match Id::from_json(Documents, held) {
                Ok(id) => Ok(Some(id)),
                Err(ReadError::Unreadable(_)) => Ok(None),
                Err(ReadError::Memory) => Err(AllocError),
            }
        }
        None => Ok(None),
    }
}
