//! For users: the errors, the lower layer that a validator asks (the trait `Below`), and the checks that need no scope.
//! It holds no code: it passes on `ir_errors`, `check_faults`, `check_variables`, `check_varyings`, and the lower layer of
//! `ir_facts`.
#![tactic(auto)]

pub use check_faults::{Explain, explain_inside};
pub use check_variables::{allowed_use, check_global, check_local};
pub use check_varyings::{
    BuiltInRule, BuiltInType, MeshOutputType, VaryingPlace, VaryingState, builtin_rule,
    check_varying_item, varyings_law,
};
pub use ir_errors::{
    AtomicError, CallError, FunctionError, GlobalVariableError, LocalVariableError, MeshFault,
    SubgroupError, UniformityDisruptor, UniformityRequirements, VaryingError,
};
pub use ir_facts::{Below, MeshAnalysis};
