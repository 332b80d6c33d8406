//! Infos of structs.

ghost use Rattle.std.specs.Prelude.{◌≡◌, Some};
ghost use Rattle.layer_types.specs.Structs.{are_sources, begun, is_source, shared_as, has_extent, fits_behind, uniform_member, first_error, uniform_end, with_member, laid_with, laid_from, laid_info, struct_info};

use crate::parts::{BAD_OFFSET, DataPart, TOO_CLOSE, part_at};
use crate::sizes::is_aligned;
use bitflags::Flags;
use ir_arena::handle::Handle;
use ir_arena::tag;
use ir_flags::valid::TypeFlags;
use ir_leaves::bindings::Binding;
use ir_types::type_info::{Disalignment, ImmediateError, TypeInfo};
use ir_types::types::{StructMember, Type};

/// What is known of a struct after some of its members.
#[derive(Clone, Copy)]
pub(crate) struct Laid {
    /// Where the last member ends, in bytes.
    pub end: u64,
    /// Where the next one may begin in a uniform buffer.
    pub uniform_end: u64,
    /// Whether the last member has no size, so that none follows.
    pub is_open: bool,
    /// What all members can be used for.
    pub flags: TypeFlags,
    /// The largest of the members, in bytes.
    pub alignment: u32,
    pub uniform_layout: Result<u32, (Handle<tag::Type>, Disalignment)>,
    pub immediates: Result<(), ImmediateError>,
}

/// Before the first member.
fn begun() -> Laid
    ensures { result ≡ begun }
{
    Laid {
        end: 0,
        uniform_end: 0,
        is_open: false,
        flags: TypeFlags::ALL,
        alignment: 1,
        uniform_layout: Ok(16),
        immediates: Ok(()),
    }
}

/// Whether a member has a size, or takes what its buffer holds.
fn has_extent(part: &DataPart) -> bool
    ensures { result ≡ has_extent part.now }
{
    part.size.is_some() || !part.info.flags.contains(TypeFlags::SIZED)
}

/// Whether a member lies after those before it.
fn fits_behind(laid: &Laid, part: &DataPart, offset: u32) -> bool
    ensures { result ≡ fits_behind laid.now part.now offset }
{
    if laid.is_open {
        return false;
    }
    if u64::from(offset) < laid.end {
        return false;
    }
    is_aligned(part.alignment, offset) && has_extent(part)
}

/// The layout in a uniform buffer after one more member.
fn uniform_member(
    own: Handle<tag::Type>,
    laid: &Laid,
    needed: Result<u32, (Handle<tag::Type>, Disalignment)>,
    offset: u32,
) -> Result<u32, (Handle<tag::Type>, Disalignment)>
    ensures { result ≡ uniform_member own laid.now.uniform_layout needed laid.now.uniform_end offset }
{
    let alignment = match laid.uniform_layout {
        Ok(alignment) => alignment,
        Err(bad) => return Err(bad),
    };
    let needed = match needed {
        Ok(needed) => needed,
        Err(bad) => return Err(bad),
    };
    if !is_aligned(needed, offset) {
        return Err((own, BAD_OFFSET));
    }
    if u64::from(offset) < laid.uniform_end {
        return Err((own, TOO_CLOSE));
    }
    Ok(alignment.max(needed))
}

/// The first of two that is wrong.
fn first_error(
    first: Result<(), ImmediateError>,
    second: Result<(), ImmediateError>,
) -> Result<(), ImmediateError>
    ensures { result ≡ first_error first second }
{
    match first {
        Ok(()) => second,
        Err(bad) => Err(bad),
    }
}

/// Where the next member may begin in a uniform buffer: what a struct takes is a multiple of 16 bytes.
fn uniform_end(part: &DataPart, offset: u32) -> u64
    ensures { result ≡ uniform_end part.now offset }
{
    let size = u64::from(part.size.unwrap_or(0));
    if part.is_struct {
        u64::from(offset) + (size + 15) / 16 * 16
    } else {
        u64::from(offset) + size
    }
}

/// After one more member, which fits.
fn with_member(own: Handle<tag::Type>, laid: &Laid, part: &DataPart, offset: u32) -> Laid
    ensures { result ≡ with_member own laid.now part.now offset }
{
    let size = part.size.unwrap_or(0);
    Laid {
        end: u64::from(offset) + u64::from(size),
        uniform_end: uniform_end(part, offset),
        is_open: !part.info.flags.contains(TypeFlags::SIZED),
        flags: laid.flags.intersection(part.info.flags),
        alignment: laid.alignment.max(part.alignment),
        uniform_layout: uniform_member(own, laid, part.info.uniform_layout, offset),
        immediates: first_error(laid.immediates, part.info.immediates_compatibility),
    }
}

/// After one more member, where it fits.
fn laid_with(
    own: Handle<tag::Type>,
    laid: &Laid,
    part: Option<DataPart>,
    offset: u32,
) -> Option<Laid>
    ensures { result ≡ laid_with own laid.now part offset }
{
    match part {
        Some(part) => {
            if fits_behind(laid, &part, offset) {
                Some(with_member(own, laid, &part, offset))
            } else {
                None
            }
        }
        None => None,
    }
}

/// After all members; `None` where one doesn't fit.
#[tactic(auto, unfolding(crate::specs::Structs::laid_from))]
fn laid_of(
    types: &[Type],
    earlier: &[TypeInfo],
    own: Handle<tag::Type>,
    members: &[StructMember],
) -> Option<Laid>
    ensures { result ≡ laid_from types.now earlier.now own begun members.now }
{
    let mut laid = begun();
    for member in members {
        let part = part_at(types, earlier, member.ty);
        laid = laid_with(own, &laid, part, member.offset)?;
    }
    Some(laid)
}

/// The info of a struct of this span whose members lie so.
fn laid_info(laid: &Laid, span: u32) -> Option<TypeInfo>
    ensures { result ≡ laid_info span laid.now }
{
    if laid.end > u64::from(span) {
        return None;
    }
    if laid.end == 0 && !laid.is_open {
        return None;
    }
    if !is_aligned(laid.alignment, span) {
        return None;
    }
    Some(TypeInfo {
        flags: laid.flags,
        storage_layout: Ok(laid.alignment),
        uniform_layout: laid.uniform_layout,
        immediates_compatibility: laid.immediates,
    })
}

/// All flags but IO_SHAREABLE.
const UNSHARED: TypeFlags = TypeFlags(0xf7);

/// Whether a member is a source of a blend.
fn is_source(binding: &Option<Binding>) -> bool
    ensures { result ≡ is_source binding.now }
{
    match binding {
        Some(Binding::Location { blend_src, .. }) => blend_src.is_some(),
        Some(Binding::BuiltIn(_)) | None => false,
    }
}

/// Whether each member is one.
#[tactic(auto, unfolding(crate::specs::Structs::are_sources))]
fn are_sources(members: &[StructMember]) -> bool
    ensures { result ≡ are_sources members.now }
{
    for member in members {
        if !is_source(&member.binding) {
            return false;
        }
    }
    true
}

/// The info of a struct, whose members are sources of a blend or not: only where they are it is shared between stages.
fn shared_as(are_sources: bool, info: TypeInfo) -> TypeInfo
    ensures { result ≡ shared_as are_sources info }
{
    if are_sources {
        info
    } else {
        TypeInfo {
            flags: info.flags.intersection(UNSHARED),
            storage_layout: info.storage_layout,
            uniform_layout: info.uniform_layout,
            immediates_compatibility: info.immediates_compatibility,
        }
    }
}

/// The info of a struct; `None` where it isn't well formed.
pub(crate) fn struct_info(
    types: &[Type],
    earlier: &[TypeInfo],
    own: Handle<tag::Type>,
    members: &[StructMember],
    span: u32,
) -> Option<TypeInfo>
    ensures { result ≡ struct_info types.now earlier.now own members.now span }
{
    let laid = laid_of(types, earlier, own, members)?;
    let info = laid_info(&laid, span)?;
    Some(shared_as(are_sources(members), info))
}
