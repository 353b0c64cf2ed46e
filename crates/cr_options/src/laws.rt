//! Laws of the command line. The contracts are the theorems; nothing runs.

ghost use Rattle.cr_options.specs.Laws.{SiteIsSpelled, DigitsSpell};
ghost use Rattle.cr_options.specs.Laws.{NameIsFleet, FileIsStore, JoinedFileIsStore, FileAndSiteAreStore};
ghost use Rattle.cr_options.specs.Laws.{NoSiteIsUsage, SiteAloneIsUsage, StrayIsUsage, HelpIsUsage};

/// Whatever the program's name is, it alone asks replicas in memory. With `--db FILE` the store in that file is asked, where
/// the name is no option, and with `--db=FILE` whatever it is. With `--db FILE --site HEX32` it is asked with the site that
/// the digits spell. A word that spells none is refused, and so are a site without a file, a word that stands alone, and what
/// asks for help or for a version.
pub fn command_lines_choose()
    ensures fleet { NameIsFleet }
    ensures store { FileIsStore }
    ensures joined { JoinedFileIsStore }
    ensures site { FileAndSiteAreStore }
    ensures no_site { NoSiteIsUsage }
    ensures site_alone { SiteAloneIsUsage }
    ensures stray { StrayIsUsage }
    ensures help { HelpIsUsage }
{}

/// 32 hexadecimal digits, in either case, spell exactly the site whose bytes they are, two digits a byte, and nothing else
/// spells one.
pub fn digits_spell_a_site()
    ensures spelled { SiteIsSpelled }
    ensures spells { DigitsSpell }
{}
