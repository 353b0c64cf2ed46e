//! One replica in a file.

use cr_file::{FileCells, FileFault};
use cr_lattice::change::Site;
use cr_options::stop::Stop;
use cr_session::session::Session;

/// A session over the store that a file keeps. Where it keeps none, one of the site is made there.
///
/// # Errors
/// `Usage` where there is no store, and no site to make one with. `Store` where the file can't be opened as a database, its
/// store is damaged, it holds something else, or memory or the device doesn't suffice.
pub(crate) fn session_in(
    rt: &HostRuntime,
    path: &str,
    site: Option<Site>,
) -> Result<Session<FileCells>, Stop> {
    match FileCells::in_file(rt, path, site) {
        Ok(cells) => Ok(Session::new(cells)),
        Err(FileFault::NoSite) => Err(Stop::Usage),
        Err(_) => Err(Stop::Store),
    }
}
