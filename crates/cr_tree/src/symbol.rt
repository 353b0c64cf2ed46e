//! Symbols: what the grammar sees of a token.

ghost use Rattle.std.specs.Prelude.{◌≡◌};
ghost use Rattle.cr_tree.specs.Marks.{same_mark};

use cr_value::text::{Bytes, Text};

/// A word or a sign of the grammar. A sign is told by how it is written.
#[derive(Clone, Copy, Debug, PartialEq, Eq)]
pub enum Mark {
    Add,
    All,
    Alter,
    And,
    As,
    Asc,
    Begin,
    Between,
    By,
    Case,
    Cast,
    Collate,
    Column,
    Commit,
    Create,
    Cross,
    Default,
    Deferred,
    Delete,
    Desc,
    Distinct,
    Else,
    End,
    Exclusive,
    Exists,
    From,
    Group,
    Having,
    If,
    Immediate,
    In,
    Inner,
    Insert,
    Into,
    Is,
    IsNull,
    Join,
    Key,
    Left,
    Like,
    Limit,
    Not,
    NotNull,
    Null,
    Offset,
    On,
    Or,
    Order,
    Outer,
    Primary,
    Rollback,
    Select,
    Set,
    Table,
    Then,
    Transaction,
    Update,
    Values,
    When,
    Where,
    /// `(`
    Open,
    /// `)`
    Close,
    /// `,`
    Comma,
    /// `.`
    Dot,
    /// `*`
    Star,
    /// `+`
    Plus,
    /// `-`
    Minus,
    /// `/`
    Slash,
    /// `%`
    Percent,
    /// `||`
    Bars,
    /// `<`
    Less,
    /// `<=`
    AtMost,
    /// `>`
    Greater,
    /// `>=`
    AtLeast,
    /// `=`
    Equal,
    /// `==`
    DoubleEqual,
    /// `<>`
    Unequal,
    /// `!=`
    BangEqual,
}

/// What the grammar sees of a token.
#[derive(Drop)]
pub enum Symbol {
    Mark(Mark),
    /// A name, its ASCII letters in lower case.
    Name(Text),
    Text(Text),
    Blob(Bytes),
    /// A number in decimal digits, at most 9223372036854775808.
    Number(u64),
    /// The number of 64 bits that hexadecimal digits spell.
    Bits(i64),
    /// A parameter, by its number.
    Param(u16),
    /// What stands in no statement.
    Other,
}

/// Whether two marks are one.
pub fn same_mark(a: Mark, b: Mark) -> bool
    ensures { result ≡ same_mark a b }
{
    a == b
}
