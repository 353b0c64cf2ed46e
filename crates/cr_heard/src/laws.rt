//! Laws of what is heard of changes. The contracts are the theorems; nothing runs.

ghost use Rattle.cr_heard.specs.Laws.{TouchedKeysTellAll, TouchedKeysAreSound, StayingSaysNothing};

/// What a listener hears of changes is told from what is kept of the keys that they touch.
pub fn touched_keys_tell_all()
    ensures { TouchedKeysTellAll }
{}

/// What is kept of the keys that changes touch is sound, before and after they come in.
pub fn touched_keys_are_sound()
    ensures { TouchedKeysAreSound }
{}

/// Where what is kept stays as it was, nothing is heard.
pub fn staying_says_nothing()
    ensures { StayingSaysNothing }
{}
