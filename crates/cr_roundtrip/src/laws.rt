//! Laws of what is printed. The contracts are the theorems; nothing runs.

ghost use Rattle.cr_roundtrip.specs.Laws.{PrintedIsPhrase, PrintedIsSpelled, PrintedIsWithin, PrintedReadsBack};

/// What is printed of an expression is an expression of the grammar with the same tree and the same depth, and with at
/// most one more than twice as many open parentheses as its depth less one; its text has just these symbols; and it is
/// within the limits where the expression is.
pub fn printed_is_a_phrase()
    ensures phrase { PrintedIsPhrase }
    ensures spelled { PrintedIsSpelled }
    ensures within { PrintedIsWithin }
{}

/// What `print` gives for a statement that was read from a source's tokens reads back: whatever tokens the text has, they
/// are one statement to their end, with the same tree.
pub fn printed_reads_back()
    ensures { PrintedReadsBack }
{}
