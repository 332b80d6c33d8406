//! Samples, loads and queries of images.

ghost use Rattle.std.specs.Prelude.{◌≡◌, slice_get};
ghost use Rattle.layer_forms.specs.ImageForms.{gather_of, levels, flag, sampling_of, load_of, queries};

use crate::vectors::{SwizzleComponent, component_from};

/// Which level of detail an `ImageSample` takes. `Exact` and `Bias` have an operand, `Gradient` has two.
#[derive(Clone, Copy)]
pub enum LevelKind {
    Auto,
    Zero,
    Exact,
    Bias,
    Gradient,
}

/// What an `ImageSample` says beside its operands, and which of them there are.
#[derive(Clone, Copy)]
pub struct SampleForm {
    pub gather: Option<SwizzleComponent>,
    pub level: LevelKind,
    pub has_array_index: bool,
    pub has_offset: bool,
    pub has_depth_ref: bool,
    pub clamp_to_edge: bool,
}

/// Which operands an `ImageLoad` has beside image and coordinate.
#[derive(Clone, Copy)]
pub struct Loading {
    pub has_array_index: bool,
    pub has_sample: bool,
    pub has_level: bool,
}

/// What an `ImageQuery` asks.
#[derive(Clone, Copy)]
pub enum ImageQuery {
    Size,
    NumLevels,
    NumLayers,
    NumSamples,
}

const LEVELS: [LevelKind; 5] = [
    LevelKind::Auto,
    LevelKind::Zero,
    LevelKind::Exact,
    LevelKind::Bias,
    LevelKind::Gradient,
];

const QUERIES: [ImageQuery; 4] = [
    ImageQuery::Size,
    ImageQuery::NumLevels,
    ImageQuery::NumLayers,
    ImageQuery::NumSamples,
];

/// The component that is gathered: 0 for none, then X, Y, Z, W.
fn gather_from(number: u32) -> Option<SwizzleComponent>
    ensures { result ≡ gather_of number }
{
    if number == 0 {
        None
    } else {
        component_from(number - 1)
    }
}

/// The level that a number stands for.
fn level_from(number: u32) -> Option<LevelKind>
    ensures { result ≡ slice_get levels number }
{
    LEVELS.get(number as usize).copied()
}

/// Whether a flag is set.
fn flag(number: u32) -> bool
    ensures { result ≡ flag number }
{
    number % 2 == 1
}

impl SampleForm {
    /// The sampling that a number stands for.
    pub fn from_detail(detail: u32) -> Option<SampleForm>
        ensures { result ≡ sampling_of detail }
    {
        if detail >= 400 {
            return None;
        }
        let level = level_from(detail / 5 % 5)?;
        Some(SampleForm {
            gather: gather_from(detail % 5),
            level,
            has_array_index: flag(detail / 25),
            has_offset: flag(detail / 50),
            has_depth_ref: flag(detail / 100),
            clamp_to_edge: flag(detail / 200),
        })
    }
}

impl Loading {
    /// The operands that a number stands for.
    pub fn from_detail(detail: u32) -> Option<Loading>
        ensures { result ≡ load_of detail }
    {
        if detail >= 8 {
            return None;
        }
        Some(Loading {
            has_array_index: flag(detail),
            has_sample: flag(detail / 2),
            has_level: flag(detail / 4),
        })
    }
}

impl ImageQuery {
    /// The query that a number stands for.
    pub fn from_detail(detail: u32) -> Option<ImageQuery>
        ensures { result ≡ slice_get queries detail }
    {
        QUERIES.get(detail as usize).copied()
    }
}
