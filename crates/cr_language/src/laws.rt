//! Laws of the resolution of statements.

ghost use Rattle.cr_world.specs.Language.{IsLanguage};
ghost use Rattle.cr_language.specs.Laws.{SelectsLookAtTheirNames, SelectsReadTheirTables};
ghost use Rattle.cr_language.specs.Reads.{ReadsAreAllowed};
ghost use Rattle.cr_language.specs.Readable.{OnlyReadableColumnsStand, UnreadableColumnsChangeNoAnswer};
ghost use Rattle.cr_language.specs.Limits.{StatementsHaveLimits};
ghost use Rattle.cr_language.specs.Texts.{TextsHaveTokens};
ghost use Rattle.cr_language.specs.Faults.{ToldFaultsAreHad};
ghost use Rattle.cr_language.specs.Sql.{Engine, sql};

/// A select that asks for neither site nor version looks at what its own names stand for, and at nothing else.
pub fn selects_look_at_their_names()
    ensures { SelectsLookAtTheirNames }
{}

/// An accepted select is a query over the tables that are named in its FROM.
pub fn selects_read_their_tables()
    ensures { SelectsReadTheirTables }
{}

/// This project's SQL is a language of sessions, whatever functions and collations a host has registered.
pub fn sql_is_a_language()
    ensures { (e : Engine) → IsLanguage (sql e) }
{}

/// Each text has tokens.
pub fn texts_have_tokens()
    ensures { TextsHaveTokens }
{}

/// How deep an expression may be, how many parentheses may be open in it, how many arguments a call may have, and a FROM tables.
pub fn statements_have_limits()
    ensures { StatementsHaveLimits }
{}

/// Each column that stands in an accepted statement is one whose READ the authorizer answers with OK.
pub fn reads_are_allowed()
    ensures { ReadsAreAllowed }
{}

/// The columns that stand in an accepted select are among those whose READ the authorizer answers with OK.
pub fn only_readable_columns_stand()
    ensures { (e : Engine) → OnlyReadableColumnsStand e }
{}

/// What stands in columns whose READ is not answered with OK changes no answer to a select that asks for neither site nor version,
/// where its tables are defined alike and modules give rows of their width.
pub fn unreadable_columns_change_no_answer()
    ensures { (e : Engine) → UnreadableColumnsChangeNoAnswer e }
{}

/// Where a statement that touches no module evaluates to nothing within the limit on values, the fault that it is refused for is
/// one that an expression of it has where its evaluation comes to it.
pub fn told_faults_are_had()
    ensures { (e : Engine) → ToldFaultsAreHad e }
{}
