//! Sizes of vectors, and swizzles.

ghost use Rattle.std.specs.Prelude.{◌≡◌, slice_get};
ghost use Rattle.layer_forms.specs.Vectors.{sizes, components, swizzle_of};

use ir_leaves::scalars::VectorSize;

/// A component of a vector.
#[derive(Clone, Copy)]
pub enum SwizzleComponent {
    X,
    Y,
    Z,
    W,
}

/// Which components a `Swizzle` takes: as many of the four as the size says.
#[derive(Clone, Copy)]
pub struct Swizzle {
    pub size: VectorSize,
    pub first: SwizzleComponent,
    pub second: SwizzleComponent,
    pub third: SwizzleComponent,
    pub fourth: SwizzleComponent,
}

const SIZES: [VectorSize; 3] = [VectorSize::Bi, VectorSize::Tri, VectorSize::Quad];

const COMPONENTS: [SwizzleComponent; 4] = [
    SwizzleComponent::X,
    SwizzleComponent::Y,
    SwizzleComponent::Z,
    SwizzleComponent::W,
];

/// The size that a number stands for: that of a `Splat`.
pub fn size_from(detail: u32) -> Option<VectorSize>
    ensures { result ≡ slice_get sizes detail }
{
    SIZES.get(detail as usize).copied()
}

/// The component that a number stands for.
pub(crate) fn component_from(number: u32) -> Option<SwizzleComponent>
    ensures { result ≡ slice_get components number }
{
    COMPONENTS.get(number as usize).copied()
}

impl Swizzle {
    /// The swizzle that a number stands for.
    pub fn from_detail(detail: u32) -> Option<Swizzle>
        ensures { result ≡ swizzle_of detail }
    {
        let size = size_from(detail / 256)?;
        let first = component_from(detail % 4)?;
        let second = component_from(detail / 4 % 4)?;
        let third = component_from(detail / 16 % 4)?;
        let fourth = component_from(detail / 64 % 4)?;
        Some(Swizzle {
            size,
            first,
            second,
            third,
            fourth,
        })
    }
}
