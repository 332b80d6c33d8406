//! Whether the nodes of a text are a value whose numbers are in range and whose brackets nest few enough deep.

ghost use Rattle.std.specs.Prelude.{◌≡◌, ◌<◌, ◌≤◌, ◌⊎◌, map, None, IsSome};
ghost use Rattle.std.specs.Bool.{MatchBool};
ghost use Rattle.json.specs.Json.{Json};
ghost use Rattle.json.specs.Tape.{node_token};
ghost use Rattle.json.specs.Tree.{json_tokens, depth};
ghost use Rattle.serde_json.specs.Read.{of_json, max_depth};
ghost use Rattle.json_nodes.specs.Levels.{level_after};

use crate::number::Number;
use json::Node;

/// How deep the brackets of a text may nest.
const MOST_LEVELS: usize = 127;

/// How many brackets are open after a node. None where they are too many, or where a number is out of range.
#[inline]
fn level_after(level: usize, node: &Node<'_>) -> Option<usize>
    ensures { result ≡ level_after level (node_token node.now) }
{
    match *node {
        Node::Object(_) | Node::Array(_) => if level < MOST_LEVELS {
            Some(level + 1)
        } else {
            None
        },
        Node::EndObject | Node::EndArray => Some(level.saturating_sub(1)),
        Node::Number(text) => if Number::is_in_range(text) {
            Some(level)
        } else {
            None
        },
        _ => Some(level),
    }
}

/// Whether the value of these nodes has numbers in range alone, and brackets that nest at most 127 deep.
pub(crate) fn is_whole(nodes: &[Node<'_>]) -> bool
    ensures { (j : Json) → map node_token nodes.now ≡ json_tokens j
        → MatchBool result (IsSome (of_json j) × (depth j ≤ max_depth))
        ((of_json j ≡ None) ⊎ (max_depth < depth j)) }
{
    let mut level = 0;
    for node in nodes {
        match level_after(level, node) {
            Some(next) => level = next,
            None => return false,
        }
    }
    true
}
