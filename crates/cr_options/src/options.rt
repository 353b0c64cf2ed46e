//! The words of crsh's command line.

ghost use Rattle.std.specs.Prelude.{◌≡◌, ◌⊎◌, Ok, Err, IfOk, IfErr, option_map, map};
ghost use Rattle.std.specs.String.{string_bytes};
ghost use Rattle.clap.specs.Words.{app_of, kind_of};
ghost use Rattle.cr_options.specs.Options.{asked, chosen, command_line, options_of, refusal_of, site_of};

use crate::stop::Stop;
use clap::error::ErrorKind;
use clap::{Arg, Command, Error};
use hex::FromHex;
use std::alloc::{AllocError, Global};

/// The 16 bytes that name a replica.
pub type Site = [u8; 16];

/// What the words of the command line ask.
#[derive(Clone, Copy, Debug, PartialEq, Eq, Drop)]
pub enum Options<'a> {
    /// Replicas in memory.
    Fleet,
    /// The store in a file; where the file holds none, one may be made with the site, if there is one.
    File(&'a str, Option<Site>),
}

// `crsh [--db FILE] [--site HEX32]`.
fn command_line<'a>(alloc: Global) -> Result<Command<'a>, AllocError>
    ensures { IfOk result (λ command. app_of command ≡ command_line) }
{
    let file = Arg::new(alloc, "db").long("db");
    let site = Arg::new(alloc, "site").long("site");
    Command::new(alloc, "crsh").arg(file)?.arg(site)
}

// Why a parse that failed stops the program: the text that clap would tell, of help or of a refusal, is not told.
fn refusal(error: &Error) -> Stop
    ensures { result ≡ refusal_of (kind_of error.now) }
{
    match error.kind() {
        ErrorKind::OutOfMemory => Stop::Store,
        _ => Stop::Usage,
    }
}

fn site_of(digits: &str) -> Option<Site>
    ensures { result ≡ site_of digits.now }
{
    Site::from_hex(digits).ok()
}

// What the values of the two options ask. A site alone is refused here, since to clap the options have no rule between them.
fn chosen<'a>(file: Option<&'a str>, site: Option<&'a str>) -> Option<Options<'a>>
    ensures { option_map asked result ≡ chosen (option_map (λ s. s.now) file.entry) (option_map (λ s. s.now) site.entry) }
{
    match (file, site) {
        (None, None) => Some(Options::Fleet),
        (None, Some(_)) => None,
        (Some(name), None) => Some(Options::File(name, None)),
        (Some(name), Some(digits)) => match site_of(digits) {
            Some(site) => Some(Options::File(name, Some(site))),
            None => None,
        },
    }
}

/// What the words of the command line ask, of which the first is the program's name: no more is `Fleet`, `--db FILE` is the
/// store in a file, and `--db FILE --site HEX32` one with a site, of 32 hexadecimal digits in either case.
///
/// # Errors
/// `Usage` where the words are not of that form, and at `--help`; `Store` where there was no memory to read them.
pub fn read_options(alloc: Global, words: &[String]) -> Result<Options<'_>, Stop>
    ensures answer { IfOk result (λ options. options_of (map string_bytes words.entry.now) ≡ Ok (asked options)) }
    ensures refusal { IfErr result (λ stop. (stop ≡ Stop.Store) ⊎ (options_of (map string_bytes words.entry.now) ≡ Err stop)) }
{
    let Ok(command) = command_line(alloc) else {
        return Err(Stop::Store);
    };
    let matches = match command.try_get_matches_from(words) {
        Ok(matches) => matches,
        Err(error) => return Err(refusal(&error)),
    };
    match chosen(matches.get_str("db"), matches.get_str("site")) {
        Some(options) => Ok(options),
        None => Err(Stop::Usage),
    }
}
