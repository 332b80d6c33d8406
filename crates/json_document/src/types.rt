//! Types, and what they hold, as [`Types`] reads them.

ghost use Rattle.json_types.specs.Bindings.{binding_of};
ghost use Rattle.json_types.specs.ReadImages.{image_class_of, image_dimension_of, storage_format_of};
ghost use Rattle.json_types.specs.ReadSpaces.{address_space_of};
ghost use Rattle.json_types.specs.ReadTypes.{type_of, type_resolution_of};

use crate::document::Documents;
use ir_leaves::{Binding, ImageDimension, StorageFormat};
use ir_types::{AddressSpace, ImageClass, Type, TypeResolution};
use json_types::Types;
use json_values::{FromJson, Held, ReadError};

impl FromJson<Documents> for Type {
    ghost stands_for = { type_of };

    fn from_json(_: Documents, held: Held) -> Result<Self, ReadError> {
        held.read(Types)
    }
}

impl FromJson<Documents> for TypeResolution {
    ghost stands_for = { type_resolution_of };

    fn from_json(_: Documents, held: Held) -> Result<Self, ReadError> {
        held.read(Types)
    }
}

impl FromJson<Documents> for Binding {
    ghost stands_for = { binding_of };

    fn from_json(_: Documents, held: Held) -> Result<Self, ReadError> {
        held.read(Types)
    }
}

impl FromJson<Documents> for AddressSpace {
    ghost stands_for = { address_space_of };

    fn from_json(_: Documents, held: Held) -> Result<Self, ReadError> {
        held.read(Types)
    }
}

impl FromJson<Documents> for ImageClass {
    ghost stands_for = { image_class_of };

    fn from_json(_: Documents, held: Held) -> Result<Self, ReadError> {
        held.read(Types)
    }
}

impl FromJson<Documents> for ImageDimension {
    ghost stands_for = { image_dimension_of };

    fn from_json(_: Documents, held: Held) -> Result<Self, ReadError> {
        held.read(Types)
    }
}

impl FromJson<Documents> for StorageFormat {
    ghost stands_for = { storage_format_of };

    fn from_json(_: Documents, held: Held) -> Result<Self, ReadError> {
        held.read(Types)
    }
}
