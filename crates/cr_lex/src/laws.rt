//! Laws of tokens and their symbols. The contracts are the theorems; nothing runs.

ghost use Rattle.cr_lex.specs.Laws.{OneList, TokensCutNoCharacter, QuotesComeOff, KeywordsAreNoNames, OneEach};

/// A text has one list of tokens.
pub fn tokens_are_one()
    ensures { OneList }
{}

/// Each token of a text begins and ends at a character's boundary, so that it is a slice of the text.
pub fn tokens_cut_no_character()
    ensures { TokensCutNoCharacter }
{}

/// What was put in quotes comes out of them.
pub fn quotes_come_off()
    ensures { QuotesComeOff }
{}

/// A word in UTF-8 is a name exactly where it is no keyword: no word of the grammar, and none of SQL outside of it.
pub fn keywords_are_no_names()
    ensures { KeywordsAreNoNames }
{}

/// Each token has one symbol.
pub fn each_token_has_one_symbol()
    ensures { OneEach }
{}
