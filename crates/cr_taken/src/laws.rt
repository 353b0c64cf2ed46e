//! Laws of the rows that local writes want, and of their changes. The contracts are the theorems; nothing runs.

ghost use Rattle.cr_taken.specs.Laws.{SoundStoresKeep, TransactionsKeep, StoresTake, ChangesAreTaken};
ghost use Rattle.cr_taken.specs.Laws.{ShownRowsFit, InsertsFit, UpdatesFit, DeletesFit};
ghost use Rattle.cr_taken.specs.Laws.{SizedIsSmall, ShownRowsAreHeld, InsertsAreHeld, UpdatesAreHeld, DeletesAreHeld};
ghost use Rattle.cr_taken.specs.Laws.{RowsRefine, InsertsRefine, UpdatesRefine, DeletesRefine};

/// What a sound store keeps is kept as these laws want it, and so is what is kept with the changes of a transaction.
pub fn sound_stores_keep()
    ensures store { SoundStoresKeep }
    ensures transaction { TransactionsKeep }
{}

/// The changes that a write brings to a replicated table are well formed, where the table may hold the rows that the write
/// wants and nothing stands against them.
pub fn changes_of_writes_are_taken()
    ensures store { StoresTake }
    ensures kept { ChangesAreTaken }
{}

/// The rows that a write wants fit their table as those do that it shows, whatever expressions mean.
pub fn writes_want_fitting_rows<E>()
    ensures shown { ShownRowsFit }
    ensures insert { InsertsFit E }
    ensures update { UpdatesFit E }
    ensures delete { DeletesFit E }
{}

/// A value with a limit has at most 1,000,000 bytes, those of quiet terms too.
pub fn sized_meanings_give_small()
    ensures { SizedIsSmall }
{}

/// The table may hold the rows that a write wants with a limit on values, of a store or within a transaction, where the integers that
/// are kept are of 64 bits, and those that the write's own expressions give.
pub fn writes_want_held_rows()
    ensures shown { ShownRowsAreHeld }
    ensures insert { InsertsAreHeld }
    ensures update { UpdatesAreHeld }
    ensures delete { DeletesAreHeld }
{}

/// What a write wants under a meaning it wants under each that the first refines.
pub fn limits_refine_writes<E>()
    ensures rows { RowsRefine E }
    ensures insert { InsertsRefine E }
    ensures update { UpdatesRefine E }
    ensures delete { DeletesRefine E }
{}
