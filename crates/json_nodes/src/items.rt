//! The items of an array.

ghost use Rattle.std.specs.Prelude.{◌≡◌, ◌<◌, length, MatchOption, OnSome, IfNone};
ghost use Rattle.serde_json.specs.Data.{no_items, item};
ghost use Rattle.json_nodes.specs.Nodes.{data_of, items_of};

use crate::node::Node;
use std::marker::Model;

/// The items of an array, one after another. Contracts see the tokens from the next one on.
#[derive(Drop)]
pub struct Items<'v> {
    pub(crate) rest: json::Items<'v, 'v>,
}

impl<'v> Model for Items<'v> {
    ghost use Rattle.std.specs.Prelude.{List};
    ghost use Rattle.json.specs.Token.{Token, tokens_code};

    ghost Value = { List Token };

    ghost coded = { tokens_code };

    ghost use Rattle.json_nodes.specs.Nodes.{HoldsItems};

    ghost view = { λ a. a.rest };

    ghost invariant = { λ a. HoldsItems a.rest };
}

impl<'v> Items<'v> {
    /// The next item.
    #[inline]
    pub fn next(&mut self) -> Option<Node<'v>>
        ensures value { MatchOption result (items_of self.old ≡ no_items)
            (λ node. items_of self.old ≡ item (data_of node) (items_of self.new)) }
        ensures shorter { OnSome result (length self.new < length self.old) }
        ensures stays { IfNone result (self.new ≡ self.old) }
    {
        match self.rest.next() {
            Some(element) => Some(Node { element }),
            None => None,
        }
    }
}
