//! What else a request says: named values.

ghost use Rattle.std.specs.Prelude.{◌≡◌, ◌↔◌, IfOk, IsTrue};
ghost use Rattle.std.specs.Option.{option_copied};
ghost use Rattle.policy_values.specs.Value.{no_fields, fields_of, field_at};

use policy_values::{Text, Value, try_clone_fields};
use std::alloc::{AllocError, Global};
use std::collections::BTreeMap;
use std::marker::Model;

/// The named values that come with a request.
#[derive(Debug)]
pub struct Context {
    fields: BTreeMap<Text, Value>,
}

impl Drop for Context {
    fn drop(self) {
        let Context { fields } = self;
        drop(fields);
    }
}

impl Model for Context {
    ghost use Rattle.policy_values.specs.Value.{Fields};
    ghost use Rattle.policy_values.specs.ValueCode.{coded_fields};

    ghost Value = { Fields };

    ghost coded = { coded_fields };

    ghost use Rattle.policy_values.specs.Value.{fields_of};

    ghost view = { λ c. fields_of c.fields.entries };
}

impl Context {
    /// The context of these values, under their names.
    pub fn new(fields: BTreeMap<Text, Value>) -> Context
        ensures { result ≡ fields_of fields.entries }
    {
        Context { fields }
    }

    /// The context without values.
    pub fn empty(alloc: Global) -> Context
        ensures { result ≡ no_fields }
    {
        Context {
            fields: BTreeMap::new(alloc),
        }
    }

    /// Whether it has no values.
    pub fn is_empty(&self) -> bool
        ensures { IsTrue result ↔ (self.now ≡ no_fields) }
    {
        self.fields.is_empty()
    }

    /// The value under a name, where there is one.
    pub fn get(&self, name: &Text) -> Option<&Value>
        ensures { option_copied result ≡ field_at self.now name.now }
    {
        self.fields.get(name)
    }

    /// All values, under their names.
    pub fn fields(&self) -> &BTreeMap<Text, Value>
        ensures { fields_of result.now.entries ≡ self.now }
    {
        &self.fields
    }
}
