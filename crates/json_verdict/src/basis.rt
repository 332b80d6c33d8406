//! What a module is judged over: the facts of its document, or what is computed from it.

ghost use Rattle.std.specs.Prelude.{◌≡◌, Some, IfOk};
ghost use Rattle.ir_arena.specs.Points.{first_fault};
ghost use Rattle.naga_module.specs.Misfits.{module_points};
ghost use Rattle.naga_module.specs.ModuleJudgement.{IsJudgementOrMemory};
ghost use Rattle.json_verdict.specs.Basis.{IsBasis, meaning_of};
ghost use Rattle.json_verdict.specs.Judges.{computed_infos, computed_types, recorded_of};

use ir_arena::duplicate::duplicates;
use json_document::Known;
use naga_below::{Module, ModuleInfo, Sequence, Settings};
use naga_layers::{Lent, Typed, global_types, type_infos};
use naga_module::{Given, Misfit, ModuleFault, Recorded, check_module, find_misfit};
use std::alloc::{AllocError, Global};

/// What a module is judged over. It is lent, so that a refused module can be judged again.
#[derive(Drop)]
pub(crate) struct Basis {
    pub given: Given,
    /// The layer that answers the facts, if there are any.
    pub layer: Option<Recorded>,
}

impl Basis {
    /// With these facts, or with what is computed. An Err is out of memory.
    pub fn new(alloc: Global, module: &Module, known: Option<Known>) -> Result<Self, AllocError>
        ensures { IfOk result (IsBasis known «module».now) }
    {
        match known {
            Some(known) => Ok(Basis::of_facts(known)),
            None => Ok(Basis {
                given: computed(alloc, module)?,
                layer: None,
            }),
        }
    }

    fn of_facts(known: Known) -> Self
        ensures layer { result.layer ≡ Some (recorded_of known) }
        ensures infos { result.given.types.items ≡ known.type_infos }
        ensures globals { result.given.global_types.items ≡ known.global_types }
    {
        let Known {
            type_infos,
            global_types,
            facts,
        } = known;
        Basis {
            given: Given {
                types: type_infos.into_vec(),
                global_types: global_types.into_vec(),
            },
            layer: Some(Recorded { facts }),
        }
    }

    /// Judges a module.
    pub fn judge(
        &self,
        alloc: Global,
        settings: Settings,
        module: &Module,
    ) -> Result<ModuleInfo, ModuleFault>
        ensures { IsJudgementOrMemory (meaning_of self.now.layer) settings self.now.given.types.items «module».now
            self.now.given.global_types.items result }
    {
        let given = copy_of(alloc, &self.given)?;
        match &self.layer {
            Some(layer) => check_module(alloc, Lent { layer }, settings, given, module),
            None => check_module(alloc, Typed, settings, given, module),
        }
    }

    /// The first thing that doesn't fit in a module.
    pub fn misfit(&self, alloc: Global, module: &Module) -> Option<Misfit>
        ensures { result ≡ first_fault (module_points (meaning_of self.now.layer) self.now.given.types.items «module».now
            self.now.given.global_types.items) }
    {
        match &self.layer {
            Some(layer) => find_misfit(alloc, &Lent { layer }, &self.given, module),
            None => find_misfit(alloc, &Typed, &self.given, module),
        }
    }
}

/// What is computed of a module: infos of its types, and types of its global expressions. Where one of these has no type,
/// none is given, so that the module doesn't fit.
fn computed(alloc: Global, module: &Module) -> Result<Given, AllocError>
    ensures types { IfOk result (λ given. given.types.items ≡ computed_infos «module».now) }
    ensures globals { IfOk result (λ given. given.global_types.items ≡ computed_types «module».now) }
{
    let types = type_infos(alloc, module)?;
    let found = global_types(alloc, module)?;
    let global_types = match found {
        Ok(types) => types,
        Err(_) => Sequence::new(alloc),
    };
    Ok(Given {
        types: types.into_vec(),
        global_types: global_types.into_vec(),
    })
}

/// The same as what is given.
fn copy_of(alloc: Global, given: &Given) -> Result<Given, AllocError>
    ensures types { IfOk result (λ copy. copy.types.items ≡ given.now.types.items) }
    ensures globals { IfOk result (λ copy. copy.global_types.items ≡ given.now.global_types.items) }
{
    let types = given.types.as_slice().to_vec(alloc)?;
    let global_types = duplicates(alloc, given.global_types.as_slice())?;
    Ok(Given {
        types,
        global_types,
    })
}
