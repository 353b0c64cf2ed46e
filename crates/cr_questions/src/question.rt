//! A question that the authorizer is asked.

ghost use Rattle.std.specs.Prelude.{◌≡◌, IfOk};

use cr_host::meaning::Action;
use cr_value::text::Text;
use std::alloc::{AllocError, Global};

/// What is to be done, and what it is done to: for a read the table and the column, for a call the function's name in `b`.
#[derive(Debug, Drop)]
pub struct Question {
    pub action: Action,
    pub a: Text,
    pub b: Text,
}

/// A question of texts that stand elsewhere.
#[derive(Clone, Copy, Debug)]
pub struct Asked<'a> {
    pub action: Action,
    pub a: &'a str,
    pub b: &'a str,
}

impl Asked<'_> {
    ghost use Rattle.cr_questions.specs.Asked.{told};

    /// The question with texts of its own.
    ///
    /// # Errors
    /// Where memory runs out.
    pub fn copy(&self, alloc: Global) -> Result<Question, AllocError>
        ensures { IfOk result (λ q. q ≡ told self.now) }
    {
        Ok(Question {
            action: self.action,
            a: Text::from_str(alloc, self.a)?,
            b: Text::from_str(alloc, self.b)?,
        })
    }
}
