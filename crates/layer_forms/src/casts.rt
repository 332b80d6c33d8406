//! Conversions and bitcasts.

ghost use Rattle.std.specs.Prelude.{◌≡◌, slice_get};
ghost use Rattle.layer_forms.specs.Casts.{kinds, width_of, cast_of};

use ir_leaves::scalars::ScalarKind;

/// What an `As` makes of its operand: values of this kind. `convert` is their width in bytes, `None` is a bitcast.
#[derive(Clone, Copy)]
pub struct Cast {
    pub kind: ScalarKind,
    pub convert: Option<u8>,
}

const KINDS: [ScalarKind; 6] = [
    ScalarKind::Sint,
    ScalarKind::Uint,
    ScalarKind::Float,
    ScalarKind::Bool,
    ScalarKind::AbstractInt,
    ScalarKind::AbstractFloat,
];

/// The kind that a number stands for.
fn kind_from(number: u32) -> Option<ScalarKind>
    ensures { result ≡ slice_get kinds number }
{
    KINDS.get(number as usize).copied()
}

/// The width that a number stands for.
fn width_from(number: u8) -> Option<u8>
    ensures { result ≡ width_of number }
{
    if number == 0 { None } else { Some(number) }
}

impl Cast {
    /// The cast that a number stands for.
    pub fn from_detail(detail: u32) -> Option<Cast>
        ensures { result ≡ cast_of detail }
    {
        let kind = kind_from(detail / 256)?;
        Some(Cast {
            kind,
            convert: width_from((detail % 256) as u8),
        })
    }
}
