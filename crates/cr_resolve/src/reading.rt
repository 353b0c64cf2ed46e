//! What is read of a part of a statement.

ghost use Rattle.std.specs.Prelude.{◌≡◌, ◌∷◌, ◌++◌, [], OnOk};
ghost use Rattle.cr_resolve.specs.Reading.{with_both};
ghost use Rattle.cr_resolve.specs.Told.{told};

use sqlite_items::Items;
use std::alloc::AllocError;

/// What a part of a statement is, and whether an aggregate stands in it where none may, which is told once all names are
/// found.
#[derive(Drop)]
pub struct Made<T> {
    pub made: T,
    pub is_misplaced: bool,
}

impl<T: Drop> Made<Items<T>> {
    /// Puts a part behind the others. `AllocError` where memory runs out.
    pub fn push(&mut self, part: Made<T>) -> Result<(), AllocError>
        ensures { OnOk result (told self.new ≡ with_both (λ xs x. xs ++ x ∷ []) (told self.old) (told part)) }
    {
        self.made.push(part.made)?;
        self.is_misplaced = self.is_misplaced || part.is_misplaced;
        Ok(())
    }
}
