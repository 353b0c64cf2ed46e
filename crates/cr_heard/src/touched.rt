//! The keys that changes touch.

use cr_lattice::table::{Items, TableDef};
use cr_value::text::Bytes;

/// The keys of a replicated table under which some changes stand.
#[derive(Debug, Drop)]
pub struct Touched {
    pub definition: TableDef,
    pub keys: Items<Bytes>,
}
