//! The validation of a global variable.

ghost use Rattle.std.specs.Prelude.{◌≡◌, Contains, length};
ghost use Rattle.ir_facts.specs.Fits.{FitsTypes, FitsGlobals};
ghost use Rattle.check_entry.specs.GlobalPoints.{module_global_points};
ghost use Rattle.check_entry.specs.GivenInfos.{AreInfosOf};
ghost use Rattle.ir_facts.specs.Answers.{Finds, FirstOf};

use crate::validator::Validator;
use check_variables::global::check_global;
use ir_errors::interface::GlobalVariableError;
use ir_facts::below::Below;
use ir_facts::proc::expression_kinds::ExpressionKindTracker;
use ir_facts::valid::info::ModuleInfo;
use ir_facts::valid::settings::Settings;
use ir_module::module::{GlobalVariable, Module};

impl<B: Below> Validator<B> {
    /// Judges a global variable of a module: naga 30.0.1's `validate_global_var`. It allocates nothing.
    ///
    /// An Err is the first fault of `check_global`, which is given the size of the variable's type as the lower layer
    /// knows it. `kinds` are those of the module's global expressions. `mod_info` has the types of these.
    #[tactic(auto, using(ir_facts::proofs::Callers::types_name_each_other, crate::proofs::GlobalFits::global_fits))]
    pub fn validate_global_var(
        &self,
        var: &GlobalVariable,
        module: &Module,
        mod_info: &ModuleInfo,
        kinds: &ExpressionKindTracker,
    ) -> Result<(), GlobalVariableError>
        requires infos { AreInfosOf «module».now self.now.types }
        requires types { FitsTypes «module».now }
        requires globals { FitsGlobals «module».now mod_info.now }
        requires var { Contains «module».now.global_variables var.now }
        requires one_kind_each { length kinds.now ≡ length «module».now.global_expressions }
        ensures { Finds (FirstOf (module_global_points (B.meaning self.now.below) self.now.settings self.now.types «module».now
            mod_info.now kinds.now var.now)) result }
    {
        let Settings {
            flags,
            capabilities,
            ..
        } = self.settings;
        check_global(
            var,
            &module.types,
            self.infos(),
            flags,
            capabilities,
            self.below.type_size(module, var.ty),
            kinds,
            mod_info.global_types.as_slice(),
        )
    }
}
