//! Dimensions of images, and formats of the texels of storage images.

ghost use Rattle.std.specs.Prelude.{◌≡◌};
ghost use Rattle.ir_leaves.specs.Formats.{format_kind, format_scalar};

use crate::scalars::{Scalar, ScalarKind};

/// The dimension of an image.
#[derive(Clone, Copy, PartialEq, Eq, Hash, Debug)]
pub enum ImageDimension {
    D1,
    D2,
    D3,
    Cube,
}

/// The format of the texels of a storage image: its channels, the bits of each, and their kind.
#[derive(Clone, Copy, PartialEq, Eq, Hash, Debug)]
pub enum StorageFormat {
    R8Unorm,
    R8Snorm,
    R8Uint,
    R8Sint,
    R16Uint,
    R16Sint,
    R16Unorm,
    R16Snorm,
    R16Float,
    Rg8Unorm,
    Rg8Snorm,
    Rg8Uint,
    Rg8Sint,
    R32Uint,
    R32Sint,
    R32Float,
    Rg16Uint,
    Rg16Sint,
    Rg16Unorm,
    Rg16Snorm,
    Rg16Float,
    Rgba8Unorm,
    Rgba8Snorm,
    Rgba8Uint,
    Rgba8Sint,
    Bgra8Unorm,
    Rgb10a2Uint,
    Rgb10a2Unorm,
    Rg11b10Ufloat,
    R64Uint,
    Rg32Uint,
    Rg32Sint,
    Rg32Float,
    Rgba16Uint,
    Rgba16Sint,
    Rgba16Unorm,
    Rgba16Snorm,
    Rgba16Float,
    Rgba32Uint,
    Rgba32Sint,
    Rgba32Float,
}

/// The scalar kind of the texels of a storage image.
impl From<StorageFormat> for ScalarKind {
    ghost from_gives = { λ format kind. kind ≡ format_kind format };

    fn from(format: StorageFormat) -> ScalarKind {
        use StorageFormat as F;
        match format {
            F::R8Uint
            | F::Rg8Uint
            | F::Rgba8Uint
            | F::R16Uint
            | F::Rg16Uint
            | F::Rgba16Uint
            | F::R32Uint
            | F::Rg32Uint
            | F::Rgba32Uint
            | F::Rgb10a2Uint
            | F::R64Uint => ScalarKind::Uint,
            F::R8Sint
            | F::Rg8Sint
            | F::Rgba8Sint
            | F::R16Sint
            | F::Rg16Sint
            | F::Rgba16Sint
            | F::R32Sint
            | F::Rg32Sint
            | F::Rgba32Sint => ScalarKind::Sint,
            _ => ScalarKind::Float,
        }
    }
}

/// The scalar of the texels of a storage image.
impl From<StorageFormat> for Scalar {
    ghost from_gives = { λ format scalar. scalar ≡ format_scalar format };

    fn from(format: StorageFormat) -> Scalar {
        Scalar {
            kind: ScalarKind::from(format),
            width: match format {
                StorageFormat::R64Uint => 8,
                _ => 4,
            },
        }
    }
}
