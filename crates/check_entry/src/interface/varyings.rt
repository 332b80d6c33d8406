//! The checks of what an entry point puts in and out: its arguments, its result and the outputs of a mesh.

ghost use Rattle.std.specs.Prelude.{◌≡◌, ◌<◌, ◌∷◌, None, OnOk, true, false, length};
ghost use Rattle.ir_facts.specs.Fits.{FitsTypes, FitsEntry};
ghost use Rattle.ir_facts.specs.FitsBody.{SignatureFits};
ghost use Rattle.ir_arena.specs.Points.{within};
ghost use Rattle.ir_types.specs.TypeTests.{is_struct, it_is};
ghost use Rattle.ir_types.specs.Types.{inner_at};
ghost use Rattle.ir_leaves.specs.declared.built_in.BuiltIn.TheVariants.{Position};
ghost use Rattle.check_varyings.specs.Varyings.{nothing_seen, parts_of, placed_parts, points_from, seen_at, seen_in, seen_with};
ghost use Rattle.check_varyings.specs.declared.varying.MeshOutputType.TheVariants as which;
ghost use Rattle.check_entry.specs.EntryFaults.{OfArgument, OfResult, Other, fault_of};
ghost use Rattle.check_entry.specs.Mesh.{mesh_points};
ghost use Rattle.check_entry.specs.EntryVaryings.{argument_points, declared_points, has_built_in, output_item, outputs_points, place_of, primitive_points, result_parts, result_points, vertex_points};
ghost use Rattle.check_entry.specs.GivenInfos.{AreInfosOf};
ghost use Rattle.check_faults.specs.declared.entry.EntryPointError.TheVariants as fault;
ghost use Rattle.ir_facts.specs.Answers.{Answers, FirstOf, read_by};

use crate::answers::answer;
use crate::interface::InterfaceContext;
use crate::mesh::check_variable;
use crate::varyings::{argument_refused, check_returned, has_one_of_indices, result_refused};
use check_faults::entry::EntryPointError;
use check_varyings::item::{check_varying_item, take_at_once};
use check_varyings::varying::{MeshOutputType, VaryingPlace, VaryingState};
use ir_arena::handle::Handle;
use ir_arena::{Refused, tag};
use ir_facts::below::Below;
use ir_leaves::built_in::BuiltIn;
use ir_module::functions::FunctionArgument;
use ir_module::module::MeshStageInfo;
use ir_types::type_methods::{inner_at, is_struct};

impl<'a, B: Below> InterfaceContext<'a, B> {
    /// Where an input or an output of an entry point stands.
    fn place_of(&self, output: bool, mesh_output: MeshOutputType) -> VaryingPlace
        ensures { result ≡ place_of self.now.settings self.now.entry_point.now output mesh_output }
    {
        let ep = self.entry_point;
        VaryingPlace {
            stage: ep.stage,
            output,
            mesh_output,
            has_task_payload: ep.task_payload.is_some(),
            workgroup_size: ep.workgroup_size,
            capabilities: self.settings.capabilities,
            flags: self.settings.flags,
        }
    }

    /// The arguments, which are one group.
    pub(crate) fn check_arguments(&self) -> Result<(), Refused<EntryPointError>>
        requires infos { AreInfosOf self.now.program.now self.now.infos.now }
        requires types { FitsTypes self.now.program.now }
        requires signature { SignatureFits self.now.program.now self.now.entry_point.now.function }
        ensures { Answers (FirstOf (argument_points self.now.settings self.now.program.now.types self.now.infos.now
            self.now.entry_point.now)) (read_by fault_of result) }
    {
        let place = self.place_of(false, MeshOutputType::Neither);
        let mut state = VaryingState::new(self.alloc);
        let arguments = self.entry_point.function.arguments.as_slice();
        for index in 0..arguments.len() {
            self.check_argument(&place, &mut state, index as u32, &arguments[index])?;
        }
        Ok(())
    }

    /// An argument, counted from 0, at its place after what the state has seen.
    fn check_argument(
        &self,
        place: &VaryingPlace,
        state: &mut VaryingState,
        index: u32,
        argument: &FunctionArgument,
    ) -> Result<(), Refused<EntryPointError>>
        requires infos { AreInfosOf self.now.program.now self.now.infos.now }
        requires types { FitsTypes self.now.program.now }
        requires ty { argument.now.ty < length self.now.program.now.types }
        ensures fault { Answers (FirstOf (within (OfArgument index) (points_from place.now self.now.program.now.types
            self.now.infos.now (seen_in state.old) argument.now.ty argument.now.binding))) (read_by fault_of result) }
        ensures seen { OnOk result (seen_in state.new ≡ seen_with (seen_in state.old)
            (parts_of self.now.program.now.types self.now.infos.now argument.now.ty argument.now.binding)) }
    {
        let types = &self.program.types;
        let infos = self.infos;
        if take_at_once(
            self.alloc,
            place,
            state,
            types,
            infos,
            argument.ty,
            argument.binding,
        ) {
            return Ok(());
        }
        self.check_rarer_argument(place, state, index, argument)
    }

    /// The same where it doesn't show at once that nothing of it fails. It stands apart, since it clears room for a
    /// fault whenever it is called.
    #[cold]
    #[inline(never)]
    fn check_rarer_argument(
        &self,
        place: &VaryingPlace,
        state: &mut VaryingState,
        index: u32,
        argument: &FunctionArgument,
    ) -> Result<(), Refused<EntryPointError>>
        requires infos { AreInfosOf self.now.program.now self.now.infos.now }
        requires types { FitsTypes self.now.program.now }
        requires ty { argument.now.ty < length self.now.program.now.types }
        ensures fault { Answers (FirstOf (within (OfArgument index) (points_from place.now self.now.program.now.types
            self.now.infos.now (seen_in state.old) argument.now.ty argument.now.binding))) (read_by fault_of result) }
        ensures seen { OnOk result (seen_in state.new ≡ seen_with (seen_in state.old)
            (parts_of self.now.program.now.types self.now.infos.now argument.now.ty argument.now.binding)) }
    {
        let types = &self.program.types;
        let infos = self.infos;
        match check_varying_item(
            self.alloc,
            place,
            state,
            types,
            infos,
            argument.ty,
            argument.binding,
        ) {
            Ok(()) => Ok(()),
            Err(refused) => Err(argument_refused(self.alloc, index, refused)),
        }
    }

    /// The result, if there is one, which is one group; whether a position is among its parts.
    fn check_declared(&self, state: &mut VaryingState) -> Result<(), Refused<EntryPointError>>
        requires infos { AreInfosOf self.now.program.now self.now.infos.now }
        requires types { FitsTypes self.now.program.now }
        requires signature { SignatureFits self.now.program.now self.now.entry_point.now.function }
        requires seen { seen_in state.old ≡ nothing_seen }
        ensures fault { Answers (FirstOf (declared_points self.now.settings self.now.program.now.types self.now.infos.now
            self.now.entry_point.now self.now.entry_point.now.function.result)) (read_by fault_of result) }
        ensures seen { OnOk result ((seen_in state.new).built_ins (Position false) ≡ has_built_in (Position false)
            (result_parts self.now.program.now.types self.now.infos.now self.now.entry_point.now.function.result)) }
    {
        let Some(declared) = self.entry_point.function.result else {
            return Ok(());
        };
        let place = self.place_of(true, MeshOutputType::Neither);
        let types = &self.program.types;
        let infos = self.infos;
        match check_varying_item(
            self.alloc,
            &place,
            state,
            types,
            infos,
            declared.ty,
            declared.binding,
        ) {
            Ok(()) => Ok(()),
            Err(refused) => Err(result_refused(self.alloc, refused)),
        }
    }

    /// The result, and what the stage has to return.
    pub(crate) fn check_result(&self) -> Result<(), Refused<EntryPointError>>
        requires infos { AreInfosOf self.now.program.now self.now.infos.now }
        requires types { FitsTypes self.now.program.now }
        requires signature { SignatureFits self.now.program.now self.now.entry_point.now.function }
        ensures { Answers (FirstOf (result_points self.now.settings self.now.program.now.types self.now.infos.now
            self.now.entry_point.now)) (read_by fault_of result) }
    {
        let mut state = VaryingState::new(self.alloc);
        self.check_declared(&mut state)?;
        let position = state.has_built_in(BuiltIn::Position { invariant: false });
        let stage = self.entry_point.stage;
        let declared = self.entry_point.function.result;
        check_returned(self.alloc, self.program, stage, position, declared)
    }

    /// An output of a mesh: a struct, whose members may be put out.
    fn check_output(
        &self,
        state: &mut VaryingState,
        mesh_output: MeshOutputType,
        ty: Handle<tag::Type>,
    ) -> Result<(), Refused<EntryPointError>>
        requires infos { AreInfosOf self.now.program.now self.now.infos.now }
        requires types { FitsTypes self.now.program.now }
        requires ty { ty < length self.now.program.now.types }
        ensures fault { Answers
            (FirstOf ((it_is is_struct (inner_at self.now.program.now.types ty), Other fault.InvalidMeshOutputType)
            ∷ within OfResult (points_from (place_of self.now.settings self.now.entry_point.now true mesh_output)
            self.now.program.now.types self.now.infos.now (seen_in state.old) ty None))) (read_by fault_of result) }
        ensures seen { OnOk result (seen_in state.new ≡ seen_with (seen_in state.old)
            (parts_of self.now.program.now.types self.now.infos.now ty None)) }
    {
        if !is_struct(inner_at(self.program.types.as_slice(), ty)) {
            return Err(Refused::unplaced(self.alloc, EntryPointError::InvalidMeshOutputType));
        }
        let place = self.place_of(true, mesh_output);
        let types = &self.program.types;
        let infos = self.infos;
        match check_varying_item(self.alloc, &place, state, types, infos, ty, None) {
            Ok(()) => Ok(()),
            Err(refused) => Err(result_refused(self.alloc, refused)),
        }
    }

    /// The output of each vertex of a mesh, which has a position.
    fn check_vertex_output(
        &self,
        state: &mut VaryingState,
        ty: Handle<tag::Type>,
    ) -> Result<(), Refused<EntryPointError>>
        requires infos { AreInfosOf self.now.program.now self.now.infos.now }
        requires types { FitsTypes self.now.program.now }
        requires ty { ty < length self.now.program.now.types }
        requires seen { seen_in state.old ≡ nothing_seen }
        ensures fault { Answers (FirstOf (vertex_points self.now.settings self.now.program.now.types self.now.infos.now
            self.now.entry_point.now ty)) (read_by fault_of result) }
        ensures seen { OnOk result (seen_in state.new ≡ seen_at (place_of self.now.settings self.now.entry_point.now true
            which.VertexOutput) (placed_parts self.now.program.now.types self.now.infos.now
            (output_item self.now.settings self.now.entry_point.now which.VertexOutput ty))) }
    {
        self.check_output(state, MeshOutputType::VertexOutput, ty)?;
        if !state.has_built_in(BuiltIn::Position { invariant: false }) {
            let fault = EntryPointError::MissingVertexOutputPosition;
            return Err(Refused::unplaced(self.alloc, fault));
        }
        Ok(())
    }

    /// The output of each primitive of a mesh, which has one built-in of indices. The locations of the vertex output, which
    /// has this type, are taken.
    fn check_primitive_output(
        &self,
        state: &mut VaryingState,
        mesh: &MeshStageInfo,
    ) -> Result<(), Refused<EntryPointError>>
        requires infos { AreInfosOf self.now.program.now self.now.infos.now }
        requires types { FitsTypes self.now.program.now }
        requires ty { mesh.now.primitive_output_type < length self.now.program.now.types }
        requires seen { seen_in state.old ≡ seen_at (place_of self.now.settings self.now.entry_point.now true
            which.PrimitiveOutput) (placed_parts self.now.program.now.types self.now.infos.now
            (output_item self.now.settings self.now.entry_point.now which.VertexOutput mesh.now.vertex_output_type)) }
        ensures { Answers (FirstOf (primitive_points self.now.settings self.now.program.now.types self.now.infos.now
            self.now.entry_point.now (placed_parts self.now.program.now.types self.now.infos.now
            (output_item self.now.settings self.now.entry_point.now which.VertexOutput mesh.now.vertex_output_type))
            mesh.now.primitive_output_type)) (read_by fault_of result) }
    {
        let ty = mesh.primitive_output_type;
        self.check_output(state, MeshOutputType::PrimitiveOutput, ty)?;
        if !has_one_of_indices(state) {
            let fault = EntryPointError::InvalidMeshPrimitiveOutputType;
            return Err(Refused::unplaced(self.alloc, fault));
        }
        Ok(())
    }

    /// The vertex output, and then the primitive output, which share locations.
    fn check_outputs(&self, mesh: &MeshStageInfo) -> Result<(), Refused<EntryPointError>>
        requires infos { AreInfosOf self.now.program.now self.now.infos.now }
        requires types { FitsTypes self.now.program.now }
        requires vertex { mesh.now.vertex_output_type < length self.now.program.now.types }
        requires primitive { mesh.now.primitive_output_type < length self.now.program.now.types }
        ensures { Answers (FirstOf (outputs_points self.now.settings self.now.program.now.types self.now.infos.now
            self.now.entry_point.now mesh.now.vertex_output_type mesh.now.primitive_output_type))
            (read_by fault_of result) }
    {
        let mut state = VaryingState::new(self.alloc);
        self.check_vertex_output(&mut state, mesh.vertex_output_type)?;
        state.clear_built_ins();
        self.check_primitive_output(&mut state, mesh)
    }

    /// The mesh: its output variable, what that implies, and its outputs.
    pub(crate) fn check_mesh(&self) -> Result<(), Refused<EntryPointError>>
        requires infos { AreInfosOf self.now.program.now self.now.infos.now }
        requires types { FitsTypes self.now.program.now }
        requires entry { FitsEntry self.now.entry_point.now self.now.program.now }
        ensures { Answers (FirstOf (mesh_points (B.meaning self.now.below.now) self.now.settings self.now.infos.now
            self.now.program.now self.now.entry_point.now self.now.entry_point.now.mesh_info))
            (read_by fault_of result) }
    {
        let Some(mesh) = &self.entry_point.mesh_info else {
            return Ok(());
        };
        answer(self.alloc, check_variable(self.program, mesh))?;
        self.check_implied(mesh)?;
        self.check_outputs(mesh)
    }
}
