//! Modules.

ghost use Rattle.json_document.specs.Document.Modules.{module_of, types_of};

use crate::document::Documents;
use ir_arena::{Sequence, Span};
use ir_module::Module;
use ir_types::{Type, UniqueArena};
use json_nodes::Step;
use json_values::{FromJson, Held, ReadError};

/// The types of a module, of which no two are equal, each with the span 0..0. A second equal one is met once all are read.
impl FromJson<Documents> for UniqueArena<Type> {
    ghost stands_for = { types_of };

    fn from_json(_: Documents, held: Held) -> Result<Self, ReadError> {
        let types: Sequence<Type> = Sequence::from_json(Documents, held)?;
        let mut arena = UniqueArena::new(held.alloc);
        for (index, ty) in types.as_slice().iter().enumerate() {
            if arena.is_full() {
                return Err(ReadError::Memory);
            }
            let handle = arena.insert(ty.clone(held.alloc)?, Span::UNDEFINED)?;
            if handle.index() < index {
                let expected = "a type that doesn't equal an earlier one";
                let error = ReadError::expected(held.alloc, expected);
                return Err(error.within(Step::Index(index)));
            }
        }
        Ok(arena)
    }
}

impl FromJson<Documents> for Module {
    ghost stands_for = { module_of };

    fn from_json(_: Documents, held: Held) -> Result<Self, ReadError> {
        match held.eight(
            Documents,
            &(
                "types",
                "special_types",
                "constants",
                "overrides",
                "global_variables",
                "global_expressions",
                "functions",
                "entry_points",
            ),
        ) {
            Ok(
                (
                    types,
                    special_types,
                    constants,
                    overrides,
                    global_variables,
                    global_expressions,
                    functions,
                    entry_points,
                ),
            ) => Ok(Module {
                types,
                special_types,
                constants,
                overrides,
                global_variables,
                global_expressions,
                functions,
                entry_points,
            }),
            Err(error) => Err(error),
        }
    }
}
