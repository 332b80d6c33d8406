//! JSON as it is written, token by token.

ghost use Rattle.std.specs.Prelude.{◌≡◌, ◌++◌, ◌∷◌, [], OnOk, string_bytes};
ghost use Rattle.json.specs.Json.{boolean, null, string};
ghost use Rattle.json.specs.Print.{print};
ghost use Rattle.json.specs.Token as tokens;
ghost use Rattle.json_faults.specs.JsonForm.{Writes, number_form, signed_form};

use json::Writer;
use std::alloc::{AllocError, Global};
use std::marker::Model;

/// Writes JSON without white space. Contracts see the tokens that were written.
///
/// It places commas and colons. An Err is out of memory, and what was written then is not to be used.
#[derive(Drop)]
pub struct JsonWriter {
    writer: Writer,
}

impl Model for JsonWriter {
    ghost use Rattle.std.specs.Prelude.{◌≡◌, List, []};
    ghost use Rattle.json.specs.Token.{Token, tokens_code};

    ghost Value = { List Token };

    ghost coded = { tokens_code };

    ghost view = { λ w. w.writer.tokens };

    ghost invariant = { λ w. w.writer.before ≡ [] };
}

impl JsonWriter {
    /// Nothing is written yet.
    pub fn new(alloc: Global) -> Self
        ensures { result ≡ [] }
    {
        JsonWriter {
            writer: Writer::new(Vec::new(alloc)),
        }
    }

    /// The text that was written.
    pub fn into_text(self) -> String
        ensures { string_bytes result ≡ print self }
    {
        match String::from_utf8(self.writer.into_inner()) {
            Ok(text) => text,
            // Proved: the tokens of JSON are written as UTF-8.
            Err(_) => unreachable!(),
        }
    }

    /// Begins an object, whose fields follow: for each a name, then a value.
    pub(crate) fn begin_object(&mut self) -> Result<(), AllocError>
        ensures { OnOk result (self.new ≡ self.old ++ tokens.begin_object ∷ []) }
    {
        self.writer.begin_object()
    }

    /// Ends an object.
    pub fn end_object(&mut self) -> Result<(), AllocError>
        ensures { OnOk result (self.new ≡ self.old ++ tokens.end_object ∷ []) }
    {
        self.writer.end_object()
    }

    /// Begins a list, whose items follow.
    pub fn begin_array(&mut self) -> Result<(), AllocError>
        ensures { OnOk result (self.new ≡ self.old ++ tokens.begin_array ∷ []) }
    {
        self.writer.begin_array()
    }

    /// Ends a list.
    pub fn end_array(&mut self) -> Result<(), AllocError>
        ensures { OnOk result (self.new ≡ self.old ++ tokens.end_array ∷ []) }
    {
        self.writer.end_array()
    }

    /// Writes the name of a field, whose value follows.
    pub fn key(&mut self, name: &str) -> Result<(), AllocError>
        ensures { OnOk result (self.new ≡ self.old ++ tokens.key name.now ∷ []) }
    {
        self.writer.key(name)
    }

    /// Begins an object and writes the name of its first field, whose value follows.
    pub fn open(&mut self, name: &str) -> Result<(), AllocError>
        ensures { OnOk result (self.new ≡ self.old ++ tokens.begin_object ∷ tokens.key name.now ∷ []) }
    {
        self.begin_object()?;
        self.key(name)
    }

    /// Writes a text, with escapes where JSON wants them.
    pub fn string(&mut self, text: &str) -> Result<(), AllocError>
        ensures { Writes result self.old self.new (string text.now) }
    {
        self.writer.string(text)
    }

    /// Writes a number.
    pub fn number(&mut self, n: u64) -> Result<(), AllocError>
        ensures { Writes result self.old self.new (number_form n) }
    {
        self.writer.u64(n)
    }

    /// Writes a number that may be below 0.
    pub fn signed(&mut self, n: i64) -> Result<(), AllocError>
        ensures { Writes result self.old self.new (signed_form n) }
    {
        self.writer.i64(n)
    }

    /// Writes true or false.
    pub(crate) fn boolean(&mut self, truth: bool) -> Result<(), AllocError>
        ensures { Writes result self.old self.new (boolean truth) }
    {
        self.writer.boolean(truth)
    }

    /// Writes null.
    pub(crate) fn null(&mut self) -> Result<(), AllocError>
        ensures { Writes result self.old self.new null }
    {
        self.writer.null()
    }
}
