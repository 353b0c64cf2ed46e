//! A value where it stands, or one that was made.

ghost use Rattle.std.specs.Prelude.{◌≡◌, IfOk};

use cr_value::value::Value;
use std::alloc::{AllocError, Global};
use std::marker::Model;

#[derive(Drop)]
enum Source<'a> {
    Standing(&'a Value),
    Made(Value),
}

/// A value that stands somewhere, as a column's or a literal's does, or one that was made. Contracts see the value.
#[derive(Drop)]
pub struct Operand<'a> {
    source: Source<'a>,
}

impl<'a> Model for Operand<'a> {
    ghost use Rattle.cr_value.specs.declared.value.Value.{Value as Content};
    ghost use Rattle.cr_scalar.specs.Held.{held};

    ghost Value = { Content };

    ghost view = { λ o. held o.source };
}

impl<'a> Operand<'a> {
    /// The value where it stands.
    pub fn standing(value: &'a Value) -> Operand<'a>
        ensures { result ≡ value.now }
    {
        Operand {
            source: Source::Standing(value),
        }
    }

    /// A value that was made.
    pub fn made(value: Value) -> Operand<'a>
        ensures { result ≡ value }
    {
        Operand {
            source: Source::Made(value),
        }
    }

    pub fn get(&self) -> &Value
        ensures { result.now ≡ self.now }
    {
        match &self.source {
            Source::Standing(value) => value,
            Source::Made(value) => value,
        }
    }

    /// The value in memory of its own: a copy of one that stands somewhere.
    pub fn into_value(self, alloc: Global) -> Result<Value, AllocError>
        ensures { IfOk result (λ v. v ≡ self.entry) }
    {
        match self.source {
            Source::Standing(value) => value.copy(alloc),
            Source::Made(value) => Ok(value),
        }
    }
}
