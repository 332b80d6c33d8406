//! What the errors of entry points print: their names, which a clause has, but for one that has a text of its own. Their
//! sentences are in verdicts for people, which tools/listings compares; but for that of the one that is never made.

use crate::tests::parts::{expect_text, made};
use naga_below::ShaderStage;
use naga_rules::Explain;
use naga_valid::EntryPointError;
use std::process::Abort;

/// What the one error prints that has a text of its own.
const ONLY_WHERE_RAYS_ARE_TRACED: &str =
    "Only the `ray_generation`, `closest_hit`, and `miss` shader stages can access a global variable in the `ray_payload` address space";

/// The error prints this.
fn expect_printed(rt: &(impl Abort + AllocGlobal), error: &EntryPointError, expected: &str) {
    let printed = made(rt, error.to_string(rt.alloc()));
    expect_text(rt, printed.as_str(), expected);
    drop(printed);
}

#[test]
fn an_error_prints_its_name_but_for_one(rt: HostRuntime) {
    let small = EntryPointError::TaskPayloadTooSmall(3);
    expect_printed(&rt, &small, "TaskPayloadTooSmall");
    drop(small);
    let of_rays = EntryPointError::RayPayloadInInvalidStage(ShaderStage::Miss);
    expect_printed(&rt, &of_rays, ONLY_WHERE_RAYS_ARE_TRACED);
    drop(of_rays);
}

#[test]
fn a_conflict_is_told(rt: HostRuntime) {
    let sentence = EntryPointError::Conflict.sentence();
    expect_text(&rt, sentence, "two entry points have one name and stage");
}
