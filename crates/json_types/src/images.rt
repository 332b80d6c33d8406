//! Images.

ghost use Rattle.json_types.specs.ReadImages.{image_class_from, image_class_of, image_dimension_of, storage_format_of};

use crate::types::Types;
use ir_leaves::{ImageDimension, StorageFormat};
use ir_types::ImageClass;
use json_values::{FromJson, Held, Holding, ReadError, read_either, read_name};

/// The dimensions of images.
const IMAGE_DIMENSIONS: [(&str, ImageDimension); 4] = [
    ("D1", ImageDimension::D1),
    ("D2", ImageDimension::D2),
    ("D3", ImageDimension::D3),
    ("Cube", ImageDimension::Cube),
];

impl FromJson<Types> for ImageDimension {
    ghost stands_for = { image_dimension_of };

    fn from_json(_: Types, held: Held) -> Result<Self, ReadError> {
        read_name(held.alloc, held.value, &IMAGE_DIMENSIONS)
    }
}

/// The formats of storage images.
const STORAGE_FORMATS: [(&str, StorageFormat); 41] = [
    ("R8Unorm", StorageFormat::R8Unorm),
    ("R8Snorm", StorageFormat::R8Snorm),
    ("R8Uint", StorageFormat::R8Uint),
    ("R8Sint", StorageFormat::R8Sint),
    ("R16Uint", StorageFormat::R16Uint),
    ("R16Sint", StorageFormat::R16Sint),
    ("R16Unorm", StorageFormat::R16Unorm),
    ("R16Snorm", StorageFormat::R16Snorm),
    ("R16Float", StorageFormat::R16Float),
    ("Rg8Unorm", StorageFormat::Rg8Unorm),
    ("Rg8Snorm", StorageFormat::Rg8Snorm),
    ("Rg8Uint", StorageFormat::Rg8Uint),
    ("Rg8Sint", StorageFormat::Rg8Sint),
    ("R32Uint", StorageFormat::R32Uint),
    ("R32Sint", StorageFormat::R32Sint),
    ("R32Float", StorageFormat::R32Float),
    ("Rg16Uint", StorageFormat::Rg16Uint),
    ("Rg16Sint", StorageFormat::Rg16Sint),
    ("Rg16Unorm", StorageFormat::Rg16Unorm),
    ("Rg16Snorm", StorageFormat::Rg16Snorm),
    ("Rg16Float", StorageFormat::Rg16Float),
    ("Rgba8Unorm", StorageFormat::Rgba8Unorm),
    ("Rgba8Snorm", StorageFormat::Rgba8Snorm),
    ("Rgba8Uint", StorageFormat::Rgba8Uint),
    ("Rgba8Sint", StorageFormat::Rgba8Sint),
    ("Bgra8Unorm", StorageFormat::Bgra8Unorm),
    ("Rgb10a2Uint", StorageFormat::Rgb10a2Uint),
    ("Rgb10a2Unorm", StorageFormat::Rgb10a2Unorm),
    ("Rg11b10Ufloat", StorageFormat::Rg11b10Ufloat),
    ("R64Uint", StorageFormat::R64Uint),
    ("Rg32Uint", StorageFormat::Rg32Uint),
    ("Rg32Sint", StorageFormat::Rg32Sint),
    ("Rg32Float", StorageFormat::Rg32Float),
    ("Rgba16Uint", StorageFormat::Rgba16Uint),
    ("Rgba16Sint", StorageFormat::Rgba16Sint),
    ("Rgba16Unorm", StorageFormat::Rgba16Unorm),
    ("Rgba16Snorm", StorageFormat::Rgba16Snorm),
    ("Rgba16Float", StorageFormat::Rgba16Float),
    ("Rgba32Uint", StorageFormat::Rgba32Uint),
    ("Rgba32Sint", StorageFormat::Rgba32Sint),
    ("Rgba32Float", StorageFormat::Rgba32Float),
];

impl FromJson<Types> for StorageFormat {
    ghost stands_for = { storage_format_of };

    fn from_json(_: Types, held: Held) -> Result<Self, ReadError> {
        read_name(held.alloc, held.value, &STORAGE_FORMATS)
    }
}

/// The class of which no more is said.
const IMAGE_CLASSES: [(&str, ImageClass); 1] = [("External", ImageClass::External)];

/// The classes of which more is said.
#[derive(Clone, Copy)]
enum ClassName {
    Sampled,
    Depth,
    Storage,
}

/// Their names.
const HOLDING_CLASSES: [(&str, ClassName); 3] = [
    ("Sampled", ClassName::Sampled),
    ("Depth", ClassName::Depth),
    ("Storage", ClassName::Storage),
];

impl Holding<ClassName, Types> for ImageClass {
    ghost held_of = { image_class_from };

    fn read_held(name: ClassName, _: Types, held: Held) -> Result<Self, ReadError> {
        match name {
            ClassName::Sampled => match held.two(Types, &("kind", "multi")) {
                Ok((kind, multi)) => Ok(ImageClass::Sampled { kind, multi }),
                Err(error) => Err(error),
            },
            ClassName::Depth => match held.one(Types, "multi") {
                Ok(multi) => Ok(ImageClass::Depth { multi }),
                Err(error) => Err(error),
            },
            ClassName::Storage => match held.two(Types, &("format", "access")) {
                Ok((format, access)) => Ok(ImageClass::Storage { format, access }),
                Err(error) => Err(error),
            },
        }
    }
}

impl FromJson<Types> for ImageClass {
    ghost stands_for = { image_class_of };

    fn from_json(_: Types, held: Held) -> Result<Self, ReadError> {
        read_either(Types, held, &IMAGE_CLASSES, &HOLDING_CLASSES)
    }
}
