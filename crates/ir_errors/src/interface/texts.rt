//! The names of the errors of globals, and of a stage's inputs and outputs, which they print.

ghost use Rattle.std.specs.Prelude.{◌≡◌};
ghost use Rattle.ir_errors.specs.Names.{global_error_name, varying_error_name};

use crate::interface::{GlobalVariableError, VaryingError};
use std::fmt;

impl GlobalVariableError {
    /// The variant's name, as naga has it.
    #[tactic(auto, unfolding(crate::specs::Names::global_error_name))]
    pub fn name(&self) -> &'static str
        ensures { result.now ≡ global_error_name self.now }
    {
        match self {
            GlobalVariableError::InvalidUsage(_) => "InvalidUsage",
            GlobalVariableError::InvalidType(_) => "InvalidType",
            GlobalVariableError::InvalidBindingArray(_) => "InvalidBindingArray",
            GlobalVariableError::MissingTypeFlags { .. } => "MissingTypeFlags",
            GlobalVariableError::UnsupportedCapability(_) => "UnsupportedCapability",
            GlobalVariableError::InvalidBinding => "InvalidBinding",
            GlobalVariableError::Alignment(_, _, _) => "Alignment",
            GlobalVariableError::InitializerExprType => "InitializerExprType",
            GlobalVariableError::InitializerType => "InitializerType",
            GlobalVariableError::InitializerNotAllowed(_) => "InitializerNotAllowed",
            GlobalVariableError::StorageAddressSpaceWriteOnlyNotSupported =>
                "StorageAddressSpaceWriteOnlyNotSupported",
            GlobalVariableError::InvalidImmediateType(_) => "InvalidImmediateType",
            GlobalVariableError::ZeroSizedTaskPayload => "ZeroSizedTaskPayload",
            GlobalVariableError::InvalidMemoryDecorationsAddressSpace =>
                "InvalidMemoryDecorationsAddressSpace",
            GlobalVariableError::CoherentNotSupported => "CoherentNotSupported",
            GlobalVariableError::VolatileNotSupported => "VolatileNotSupported",
        }
    }
}

/// Writes the variant's name.
impl fmt::Display for GlobalVariableError {
    fn fmt<W: fmt::Write>(&self, f: &mut fmt::Formatter<W>) -> fmt::Result {
        f.write_str(self.name())
    }
}

impl std::error::Error for GlobalVariableError {}

impl VaryingError {
    /// The variant's name, as naga has it.
    #[tactic(auto, unfolding(crate::specs::Names::varying_error_name))]
    pub fn name(&self) -> &'static str
        ensures { result.now ≡ varying_error_name self.now }
    {
        match self {
            VaryingError::InvalidType(_) => "InvalidType",
            VaryingError::NotIOShareableType(_) => "NotIOShareableType",
            VaryingError::InvalidInterpolationInStage(_, _) => "InvalidInterpolationInStage",
            VaryingError::InvalidInterpolationSamplingCombination { .. } =>
                "InvalidInterpolationSamplingCombination",
            VaryingError::InvalidInterpolationForInteger => "InvalidInterpolationForInteger",
            VaryingError::MissingInterpolation => "MissingInterpolation",
            VaryingError::InvalidBuiltInStage(_) => "InvalidBuiltInStage",
            VaryingError::InvalidBuiltInType(_, _) => "InvalidBuiltInType",
            VaryingError::MissingBinding => "MissingBinding",
            VaryingError::MemberMissingBinding(_) => "MemberMissingBinding",
            VaryingError::BindingCollision { .. } => "BindingCollision",
            VaryingError::BindingCollisionBlendSrc { .. } => "BindingCollisionBlendSrc",
            VaryingError::DuplicateBuiltIn(_) => "DuplicateBuiltIn",
            VaryingError::UnsupportedCapability(_) => "UnsupportedCapability",
            VaryingError::InvalidInputAttributeInStage(_, _) => "InvalidInputAttributeInStage",
            VaryingError::InvalidAttributeInStage(_, _) => "InvalidAttributeInStage",
            VaryingError::InvalidBlendSrcIndex { .. } => "InvalidBlendSrcIndex",
            VaryingError::IncompleteBlendSrcUsage { .. } => "IncompleteBlendSrcUsage",
            VaryingError::InvalidBlendSrcWithOtherBindings { .. } =>
                "InvalidBlendSrcWithOtherBindings",
            VaryingError::BlendSrcOutputTypeMismatch { .. } => "BlendSrcOutputTypeMismatch",
            VaryingError::BlendSrcNotOnStructMember => "BlendSrcNotOnStructMember",
            VaryingError::InvalidMultiDimensionalSubgroupBuiltIn =>
                "InvalidMultiDimensionalSubgroupBuiltIn",
            VaryingError::InvalidPerPrimitive => "InvalidPerPrimitive",
            VaryingError::MissingPerPrimitive => "MissingPerPrimitive",
            VaryingError::PerVertexNotArrayOfThree => "PerVertexNotArrayOfThree",
            VaryingError::InvalidPerVertexSampling => "InvalidPerVertexSampling",
        }
    }
}

/// Writes the variant's name.
impl fmt::Display for VaryingError {
    fn fmt<W: fmt::Write>(&self, f: &mut fmt::Formatter<W>) -> fmt::Result {
        f.write_str(self.name())
    }
}

impl std::error::Error for VaryingError {}
