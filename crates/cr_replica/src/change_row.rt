//! A row of the table of changes.

ghost use Rattle.std.specs.Prelude.{◌≡◌, IfOk};
ghost use Rattle.std.specs.Option.{option_copied};
ghost use Rattle.cr_replica.specs.ChangeRow.{text_of, blob_of, integer_of, site_of, change_of};

use cr_lattice::change::{Change, Site};
use cr_value::text::{Bytes, Text};
use cr_value::value::Value;
use std::alloc::{AllocError, Global};

/// A row of `crsql_changes`, without the two columns that a taking ignores, `db_version` and `seq`. Its values may be of
/// any type.
#[derive(Debug, Drop)]
pub struct ChangeRow {
    pub table: Value,
    pub pk: Value,
    pub cid: Value,
    pub val: Value,
    pub col_version: Value,
    pub site_id: Value,
    pub cl: Value,
}

fn text_of(value: &Value) -> Option<&Text>
    ensures { option_copied result ≡ text_of value.now }
{
    match value {
        Value::Text(text) => Some(text),
        _ => None,
    }
}

fn blob_of(value: &Value) -> Option<&Bytes>
    ensures { option_copied result ≡ blob_of value.now }
{
    match value {
        Value::Blob(blob) => Some(blob),
        _ => None,
    }
}

fn integer_of(value: &Value) -> Option<i64>
    ensures { result ≡ integer_of value.now }
{
    match value {
        Value::Int(number) => Some(*number),
        _ => None,
    }
}

fn site_of(value: &Value) -> Option<Site>
    ensures { result ≡ site_of value.now }
{
    Site::try_from(blob_of(value)?.as_slice()).ok()
}

impl ChangeRow {
    /// The change that the row tells of, in memory of its own: `None` where the row has not the shape of one, that is
    /// texts for the table and the cid, blobs for the key and the site, the site of 16 bytes, and integers for the
    /// version and the causal length.
    #[tactic(auto, unfolding(crate::specs::ChangeRow::change_of))]
    pub fn change(&self, alloc: Global) -> Result<Option<Change>, AllocError>
        ensures { IfOk result (λ change. change ≡ change_of self.now) }
    {
        let Some(table) = text_of(&self.table) else {
            return Ok(None);
        };
        let Some(pk) = blob_of(&self.pk) else {
            return Ok(None);
        };
        let Some(cid) = text_of(&self.cid) else {
            return Ok(None);
        };
        let Some(col_version) = integer_of(&self.col_version) else {
            return Ok(None);
        };
        let Some(site) = site_of(&self.site_id) else {
            return Ok(None);
        };
        let Some(cl) = integer_of(&self.cl) else {
            return Ok(None);
        };
        Ok(Some(Change {
            table: table.copy(alloc)?,
            pk: pk.copy(alloc)?,
            cid: cid.copy(alloc)?,
            val: self.val.copy(alloc)?,
            col_version,
            site,
            cl,
        }))
    }
}
