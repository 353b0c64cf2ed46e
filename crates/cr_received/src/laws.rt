//! Laws of bad rows. The contracts are the theorems; nothing runs.

ghost use Rattle.std.specs.Prelude.{◌≡◌, List};
ghost use Rattle.cr_query.specs.Query.{Row};
ghost use Rattle.cr_world.specs.State.{State};
ghost use Rattle.cr_world.specs.Statement.{first_bad};
ghost use Rattle.cr_received.specs.Received.{first_bad_in};

/// Which row a session tells of as bad, its tables tell.
pub fn tables_tell_what_is_bad()
    ensures { (st : State) (rows : List Row) → first_bad st rows ≡ first_bad_in st.holding.tables rows }
{}
