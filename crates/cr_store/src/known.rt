//! What a store knows without asking sqlite.

use cr_cells::marks::Mark;
use cr_lattice::change::Site;
use cr_lattice::table::Table;

/// What the rows of `cr_meta`, `cr_schema` and `cr_peer` say.
#[derive(Debug, Drop)]
pub(crate) struct Known {
    pub(crate) site: Site,
    pub(crate) version: i64,
    pub(crate) tables: Vec<Table>,
    pub(crate) marks: Vec<Mark>,
}
