//! Laws of texts that are put together of tokens. The contracts are the theorems; nothing runs.

ghost use Rattle.cr_pieces.specs.Laws.{WrittenIsRead, ReadOneWay, SpelledIsRead, SampleIsWritten};
ghost use Rattle.cr_pieces.specs.Laws.{NamesArePieces, StringsArePieces, WordsArePieces, SignsArePieces};
ghost use Rattle.cr_pieces.specs.Laws.{NumbersArePieces, BlobsArePieces, ParamsArePieces, IntegersAreSpelled};

/// A text that is put together of tokens has just these, and their symbols are the pieces' own.
pub fn written_is_read()
    ensures { WrittenIsRead }
{}

/// However the tokens of such a text are found, they are the pieces' own, and so are their symbols.
pub fn written_is_read_one_way()
    ensures { ReadOneWay }
{}

/// A text that spells symbols has just these.
pub fn spelled_is_read()
    ensures { SpelledIsRead }
{}

/// A known text is put together of tokens.
pub fn sample_is_written()
    ensures { SampleIsWritten }
{}

/// A name in quotes is a piece.
pub fn names_are_pieces()
    ensures { NamesArePieces }
{}

/// A text in quotes is a piece.
pub fn strings_are_pieces()
    ensures { StringsArePieces }
{}

/// A word of the grammar is a piece.
pub fn words_are_pieces()
    ensures { WordsArePieces }
{}

/// A sign of the grammar is a piece.
pub fn signs_are_pieces()
    ensures { SignsArePieces }
{}

/// A number in decimal digits is a piece.
pub fn numbers_are_pieces()
    ensures { NumbersArePieces }
{}

/// A blob in hexadecimal digits is a piece.
pub fn blobs_are_pieces()
    ensures { BlobsArePieces }
{}

/// A parameter with its number is a piece.
pub fn params_are_pieces()
    ensures { ParamsArePieces }
{}

/// An integer of 64 bits in decimal digits spells a number, behind a minus where it is below 0.
pub fn integers_are_spelled()
    ensures { IntegersAreSpelled }
{}
