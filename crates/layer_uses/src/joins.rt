//! Uses of globals, joined one by one and all together.

ghost use Rattle.std.specs.Prelude.{◌≡◌};
ghost use Rattle.layer_uses.specs.Joins.{joined_at, with_use, all_joined};

use crate::roots::Root;
use bitflags::Flags;
use ir_flags::valid::GlobalUse;

/// Joins a use to those of the global at a place, where it is one of these.
fn join_at(uses: &mut Vec<GlobalUse>, place: usize, more: GlobalUse)
    ensures { uses.new.items ≡ joined_at uses.old.items place more }
{
    if let Some(global_use) = uses.get_mut(place) {
        *global_use = global_use.union(more);
    }
}

/// Joins a use to those of the global that a root is.
pub(crate) fn join(uses: &mut Vec<GlobalUse>, root: Root, more: GlobalUse)
    ensures { uses.new.items ≡ with_use uses.old.items root more }
{
    if let Some(global) = root {
        join_at(uses, global.index(), more);
    }
}

/// Joins to the use of each global the one at the same place.
#[tactic(auto, unfolding(crate::specs::Joins::joined_from))]
pub(crate) fn join_all(uses: &mut Vec<GlobalUse>, more: &[GlobalUse])
    ensures { uses.new.items ≡ all_joined uses.old.items more.now }
{
    let mut place = 0;
    for global_use in more {
        join_at(uses, place, *global_use);
        place += 1;
    }
}
