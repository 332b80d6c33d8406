//! A value of a text.

ghost use Rattle.std.specs.Prelude.{◌≡◌, IsTrue, true, map, is_some, option_map, option_and_then};
ghost use Rattle.serde_json.specs.Find.{as_null, as_bool, as_number, as_str, as_array, as_object, as_u64, as_i64, to_float, get};
ghost use Rattle.json_nodes.specs.Nodes.{data_of, items_of};
ghost use Rattle.json_nodes.specs.Numbers.{num_of};
ghost use Rattle.json_nodes.specs.Fields.{only_of, has_no_other, has_each};

use crate::fields::{are_among, are_in_order, least_other, only_field};
use crate::items::Items;
use crate::number::Number;
use json::Element;
use std::marker::Model;

/// A value of a text. Contracts see the tokens from its first one on.
#[derive(Drop)]
pub struct Node<'v> {
    pub(crate) element: Element<'v, 'v>,
}

impl<'v> Model for Node<'v> {
    ghost use Rattle.std.specs.Prelude.{List};
    ghost use Rattle.json.specs.Token.{Token, tokens_code};

    ghost Value = { List Token };

    ghost coded = { tokens_code };

    ghost use Rattle.json_nodes.specs.Nodes.{HoldsData};

    ghost view = { λ a. a.element };

    ghost invariant = { λ a. HoldsData a.element };
}

impl<'v> Node<'v> {
    /// Whether it is null.
    #[inline]
    pub fn is_null(&self) -> bool
        ensures { result ≡ is_some (as_null (data_of self.now)) }
    {
        self.element.is_null()
    }

    /// The bool that it is.
    #[inline]
    pub fn as_bool(&self) -> Option<bool>
        ensures { result ≡ as_bool (data_of self.now) }
    {
        self.element.as_bool()
    }

    /// The text that it is.
    #[inline]
    pub fn as_str(&self) -> Option<&'v str>
        ensures { option_map (λ s. s.now) result ≡ as_str (data_of self.now) }
    {
        self.element.as_str()
    }

    /// The number that it is.
    #[inline]
    fn number(&self) -> Option<Number>
        ensures { option_map num_of result ≡ as_number (data_of self.now) }
    {
        match self.element.as_number() {
            Some(text) => Number::parse(text),
            None => None,
        }
    }

    /// The number that it is, where its text is digits alone and it has 64 bits.
    #[inline]
    pub fn as_u64(&self) -> Option<u64>
        ensures { result ≡ option_and_then as_u64 (as_number (data_of self.now)) }
    {
        match self.number() {
            Some(number) => number.as_u64(),
            None => None,
        }
    }

    /// The number that it is, where its text is digits, perhaps with a minus, and it has 64 bits with its sign.
    #[inline]
    pub fn as_i64(&self) -> Option<i64>
        ensures { result ≡ option_and_then as_i64 (as_number (data_of self.now)) }
    {
        match self.number() {
            Some(number) => number.as_i64(),
            None => None,
        }
    }

    /// The float nearest to the number that it is.
    #[inline]
    pub fn as_f64(&self) -> Option<f64>
        ensures { result ≡ option_map to_float (as_number (data_of self.now)) }
    {
        match self.number() {
            Some(number) => Some(number.as_f64()),
            None => None,
        }
    }

    /// Whether it is an object.
    #[inline]
    pub fn is_object(&self) -> bool
        ensures { result ≡ is_some (as_object (data_of self.now)) }
    {
        self.element.members().is_some()
    }

    /// The last field of this name, where it is an object.
    #[inline]
    pub fn get(&self, name: &str) -> Option<Node<'v>>
        ensures { option_map data_of result ≡ get name.now (data_of self.now) }
    {
        match self.element.get(name) {
            Some(element) => Some(Node { element }),
            None => None,
        }
    }

    /// The items, where it is an array.
    #[inline]
    pub fn items(&self) -> Option<Items<'v>>
        ensures { option_map items_of result ≡ as_array (data_of self.now) }
    {
        match self.element.items() {
            Some(rest) => Some(Items { rest }),
            None => None,
        }
    }

    /// The only field of an object that has one, however often it comes in the text.
    #[inline]
    pub fn only_field(&self) -> Option<(&'v str, Node<'v>)>
        ensures { option_map (λ f. (f.0.now, data_of f.1)) result
            ≡ option_and_then only_of (as_object (data_of self.now)) }
    {
        match self.element.members() {
            Some(members) => match only_field(members) {
                Some((name, element)) => Some((name, Node { element })),
                None => None,
            },
            None => None,
        }
    }

    /// Whether it is an object, and none of its fields has another name than these.
    #[inline]
    pub fn has_no_other(&self, names: &[&str]) -> bool
        ensures { result ≡ has_no_other (map (λ n. n.now) names.now) (data_of self.now) }
    {
        match self.element.members() {
            Some(members) => are_among(members, names),
            None => false,
        }
    }

    /// Whether it is an object whose fields stand in the text in this order, each once, and no other. A no says nothing: it may
    /// be an object with these fields in another order.
    #[inline]
    pub fn has_in_order(&self, names: &[&str]) -> bool
        ensures no_other { IsTrue result → has_no_other (map (λ n. n.now) names.now) (data_of self.now) ≡ true }
        ensures each { IsTrue result → has_each (map (λ n. n.now) names.now) (data_of self.now) ≡ true }
    {
        match self.element.members() {
            Some(members) => are_in_order(members, names),
            None => false,
        }
    }

    /// Of the names of its fields that are none of these, the least by its bytes. It is for messages, and no clause says which
    /// it is.
    pub fn other_name(&self, names: &[&str]) -> Option<&'v str> {
        match self.element.members() {
            Some(members) => least_other(members, names),
            None => None,
        }
    }
}
