//! Address spaces.

ghost use Rattle.json_types.specs.ReadSpaces.{address_space_from, address_space_of};

use crate::types::Types;
use ir_types::AddressSpace;
use json_values::{FromJson, Held, Holding, ReadError, read_either};

/// The spaces of which no more is said.
const ADDRESS_SPACES: [(&str, AddressSpace); 9] = [
    ("Function", AddressSpace::Function),
    ("Private", AddressSpace::Private),
    ("WorkGroup", AddressSpace::WorkGroup),
    ("Uniform", AddressSpace::Uniform),
    ("Handle", AddressSpace::Handle),
    ("Immediate", AddressSpace::Immediate),
    ("TaskPayload", AddressSpace::TaskPayload),
    ("RayPayload", AddressSpace::RayPayload),
    ("IncomingRayPayload", AddressSpace::IncomingRayPayload),
];

/// The space of which more is said.
const STORAGE_SPACE: [(&str, ()); 1] = [("Storage", ())];

impl FromJson<Types> for AddressSpace {
    ghost stands_for = { address_space_of };

    fn from_json(_: Types, held: Held) -> Result<Self, ReadError> {
        read_either(Types, held, &ADDRESS_SPACES, &STORAGE_SPACE)
    }
}

impl Holding<(), Types> for AddressSpace {
    ghost held_of = { address_space_from };

    fn read_held(_: (), _: Types, held: Held) -> Result<Self, ReadError> {
        match held.one(Types, "access") {
            Ok(access) => Ok(AddressSpace::Storage { access }),
            Err(error) => Err(error),
        }
    }
}
