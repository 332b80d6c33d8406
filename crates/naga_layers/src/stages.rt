//! The stages that expressions may run in.

ghost use Rattle.std.specs.Prelude.{◌≡◌};
ghost use Rattle.std.specs.Option.{option_copied};
ghost use Rattle.naga_layers.specs.Stages.{sample_stages, callee_stages, stages_of};

use bitflags::Flags;
use ir_errors::expression::ExpressionError;
use ir_facts::valid::info::{FunctionInfo, ModuleInfo};
use ir_facts::valid::settings::Settings;
use ir_flags::valid::ShaderStages;
use ir_module::expressions::Expression;
use layer_forms::{LevelKind, SampleForm};

/// The stages of an image sample of this form: where the level depends on neighbors, the fragment stage.
fn sample_stages(form: Option<SampleForm>) -> ShaderStages
    ensures { result ≡ sample_stages form }
{
    match form {
        Some(form) => match form.level {
            LevelKind::Auto | LevelKind::Bias => ShaderStages::FRAGMENT,
            LevelKind::Zero | LevelKind::Exact | LevelKind::Gradient => ShaderStages::ALL,
        },
        None => ShaderStages::ALL,
    }
}

/// The stages of the function whose result an expression is, where its info is there.
fn callee_stages(info: Option<&FunctionInfo>) -> Result<ShaderStages, ExpressionError>
    ensures { result ≡ callee_stages (option_copied info.entry) }
{
    match info {
        Some(info) => Ok(info.available_stages),
        None => Err(ExpressionError::Lower(1)),
    }
}

/// The stages that an expression may run in, by itself.
pub(crate) fn stages_of(
    settings: Settings,
    infos: &ModuleInfo,
    expression: Option<&Expression>,
) -> Result<ShaderStages, ExpressionError>
    ensures { result ≡ stages_of settings infos.now (option_copied expression.entry) }
{
    match expression {
        Some(Expression::Derivative { .. }) => Ok(ShaderStages::FRAGMENT),
        Some(Expression::ImageSample { detail, .. }) => {
            Ok(sample_stages(SampleForm::from_detail(*detail)))
        }
        Some(Expression::CallResult(function)) => {
            callee_stages(infos.functions.as_slice().get(function.index()))
        }
        Some(Expression::WorkGroupUniformLoadResult { .. }) => Ok(ShaderStages::COMPUTE_LIKE),
        Some(Expression::SubgroupBallotResult | Expression::SubgroupOperationResult { .. }) => {
            Ok(settings.subgroup_stages)
        }
        Some(Expression::CooperativeLoad { .. } | Expression::CooperativeMultiplyAdd { .. }) => {
            Ok(ShaderStages::COMPUTE)
        }
        Some(
            Expression::Literal(_)
            | Expression::Constant(_)
            | Expression::Override(_)
            | Expression::ZeroValue(_)
            | Expression::Compose { .. }
            | Expression::Access { .. }
            | Expression::AccessIndex { .. }
            | Expression::FunctionArgument(_)
            | Expression::GlobalVariable(_)
            | Expression::LocalVariable(_)
            | Expression::Load { .. }
            | Expression::AtomicResult { .. }
            | Expression::RayQueryProceedResult
            | Expression::Splat { .. }
            | Expression::Swizzle { .. }
            | Expression::ImageLoad { .. }
            | Expression::ImageQuery { .. }
            | Expression::Unary { .. }
            | Expression::Binary { .. }
            | Expression::Select { .. }
            | Expression::Relational { .. }
            | Expression::Math { .. }
            | Expression::As { .. }
            | Expression::ArrayLength { .. }
            | Expression::RayQueryGetIntersection { .. }
            | Expression::RayQueryVertexPositions { .. },
        )
        | None => Ok(ShaderStages::ALL),
    }
}
