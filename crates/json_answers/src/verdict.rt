//! The verdict of a text, and what is known of a text that was judged.

ghost use Rattle.std.specs.Prelude.{◌≡◌, None};
ghost use Rattle.json_answers.specs.Status.{status_of};

use check_faults::ModuleFault;
use check_faults::module::drop_fault;
use ir_misfits::Misfit;
use ir_module::module::drop_module;
use json_document::{Id, Unreadable};
use json_places::Found;
use naga_below::{Module, ModuleInfo};

/// The verdict of a text.
#[derive(Drop)]
pub enum Verdict {
    /// The module is accepted, with these infos.
    Accepted { module: Module, infos: ModuleInfo },
    /// The module has this fault. `ModuleFault::Memory` is out of memory, while the text was read or the module was
    /// judged.
    Refused(ModuleFault),
    /// The text is not a document.
    Unreadable(Unreadable),
}

impl Verdict {
    /// The exit status: 0 accepted, 1 refused, 2 unreadable, 3 out of memory.
    pub fn status(&self) -> u8
        ensures { result ≡ status_of self.now }
    {
        match self {
            Verdict::Accepted { .. } => 0,
            Verdict::Refused(ModuleFault::Memory) => 3,
            Verdict::Refused(_) => 1,
            Verdict::Unreadable(_) => 2,
        }
    }
}

/// Drops a verdict, as [`drop_module`] does a module.
fn drop_verdict(verdict: Verdict) {
    match verdict {
        Verdict::Accepted { module, infos } => {
            drop_module(module);
            drop(infos);
        }
        Verdict::Refused(fault) => drop_fault(fault),
        Verdict::Unreadable(unreadable) => drop(unreadable),
    }
}

/// A text that was judged.
#[derive(Drop)]
pub struct Examined {
    /// What its document is called, where the text says so. Out of memory may have none.
    pub id: Option<Id>,
    pub verdict: Verdict,
    /// Where the verdict is `NotFit`, the first thing that doesn't fit.
    pub misfit: Option<Misfit>,
    /// Of a module that was judged and refused.
    pub refused: Option<RefusedModule>,
}

/// A refused module, and where its fault stands.
#[derive(Drop)]
pub struct RefusedModule {
    pub module: Module,
    /// Whether its facts were computed.
    pub is_computed: bool,
    /// None where it couldn't be found, out of memory.
    pub found: Option<Found>,
}

/// Drops what is known of a refused module, as [`drop_module`] does a module.
pub fn drop_refused(refused: RefusedModule) {
    let RefusedModule {
        module,
        is_computed: _,
        found,
    } = refused;
    drop_module(module);
    drop(found);
}

/// Drops what is known of a text, as [`drop_module`] does a module.
pub fn drop_examined(examined: Examined) {
    let Examined {
        id,
        verdict,
        misfit: _,
        refused,
    } = examined;
    drop(id);
    drop_verdict(verdict);
    if let Some(refused) = refused {
        drop_refused(refused);
    }
}

impl Examined {
    /// What was found of the fault.
    pub fn found(&self) -> Option<&Found> {
        self.refused.as_ref()?.found.as_ref()
    }
}

/// A verdict of which there is no more to say.
pub fn alone(id: Option<Id>, verdict: Verdict) -> Examined
    ensures id { result.id ≡ id }
    ensures verdict { result.verdict ≡ verdict }
    ensures misfit { result.misfit ≡ None }
{
    Examined {
        id,
        verdict,
        misfit: None,
        refused: None,
    }
}
