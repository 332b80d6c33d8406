//! The checks of a mesh that ask the lower layer for what the output variable implies.

ghost use Rattle.ir_arena.specs.Points.{within};
ghost use Rattle.check_entry.specs.EntryFaults.{fault_of};
ghost use Rattle.check_entry.specs.Mesh.{implied_points};
ghost use Rattle.ir_facts.specs.Answers.{Answers, FirstOf, read_by};

use crate::answers::answer;
use crate::interface::InterfaceContext;
use crate::mesh::{check_stated, mesh_error};
use check_faults::entry::EntryPointError;
use ir_arena::Refused;
use ir_facts::below::Below;
use ir_facts::proc::mesh::MeshAnalysis;
use ir_module::module::MeshStageInfo;

impl<'a, B: Below> InterfaceContext<'a, B> {
    /// What the output variable of a mesh implies: its type can be put out, and implies just what is stated; and the target
    /// has meshes of points, where this is one. A fault of the lower layer keeps its places.
    #[tactic(auto, using(crate::proofs::EntrySteps::judges_within))]
    pub(crate) fn check_implied(&self, mesh: &MeshStageInfo) -> Result<(), Refused<EntryPointError>>
        ensures { Answers (FirstOf (within fault_of (implied_points self.now.settings.capabilities self.now.program.now
            ((B.meaning self.now.below.now).mesh_analysis self.now.program.now mesh.now.output_variable) mesh.now)))
            (read_by fault_of result) }
    {
        let alloc = self.alloc;
        let below = self.below;
        let analysis = below.analyze_mesh_shader_info(alloc, self.program, mesh.output_variable)?;
        let MeshAnalysis {
            implied,
            overrides,
            fault,
        } = analysis;
        if let Some(found) = fault {
            let error = mesh_error(*found.as_inner());
            return Err(Refused::new(alloc, found.with_fault(error)));
        }
        let capabilities = self.settings.capabilities;
        answer(
            alloc,
            check_stated(capabilities, self.program, &overrides, &implied, mesh),
        )
    }
}
