//! The words and signs of the grammar.

ghost use Rattle.std.specs.Prelude.{◌≡◌, map};
ghost use Rattle.std.specs.List.{find};
ghost use Rattle.std.specs.Option.{option_copied};
ghost use Rattle.std.specs.Str.{str_eq_ignore_ascii_case};
ghost use Rattle.std.specs.Map.{lookup};
ghost use Rattle.cr_lex.specs.Marks.{marked, words, signs, outside_word};

use cr_tree::symbol::Mark;

// The words of the grammar.
const WORDS: [(&str, Mark); 60] = [
    ("ADD", Mark::Add),
    ("ALL", Mark::All),
    ("ALTER", Mark::Alter),
    ("AND", Mark::And),
    ("AS", Mark::As),
    ("ASC", Mark::Asc),
    ("BEGIN", Mark::Begin),
    ("BETWEEN", Mark::Between),
    ("BY", Mark::By),
    ("CASE", Mark::Case),
    ("CAST", Mark::Cast),
    ("COLLATE", Mark::Collate),
    ("COLUMN", Mark::Column),
    ("COMMIT", Mark::Commit),
    ("CREATE", Mark::Create),
    ("CROSS", Mark::Cross),
    ("DEFAULT", Mark::Default),
    ("DEFERRED", Mark::Deferred),
    ("DELETE", Mark::Delete),
    ("DESC", Mark::Desc),
    ("DISTINCT", Mark::Distinct),
    ("ELSE", Mark::Else),
    ("END", Mark::End),
    ("EXCLUSIVE", Mark::Exclusive),
    ("EXISTS", Mark::Exists),
    ("FROM", Mark::From),
    ("GROUP", Mark::Group),
    ("HAVING", Mark::Having),
    ("IF", Mark::If),
    ("IMMEDIATE", Mark::Immediate),
    ("IN", Mark::In),
    ("INNER", Mark::Inner),
    ("INSERT", Mark::Insert),
    ("INTO", Mark::Into),
    ("IS", Mark::Is),
    ("ISNULL", Mark::IsNull),
    ("JOIN", Mark::Join),
    ("KEY", Mark::Key),
    ("LEFT", Mark::Left),
    ("LIKE", Mark::Like),
    ("LIMIT", Mark::Limit),
    ("NOT", Mark::Not),
    ("NOTNULL", Mark::NotNull),
    ("NULL", Mark::Null),
    ("OFFSET", Mark::Offset),
    ("ON", Mark::On),
    ("OR", Mark::Or),
    ("ORDER", Mark::Order),
    ("OUTER", Mark::Outer),
    ("PRIMARY", Mark::Primary),
    ("ROLLBACK", Mark::Rollback),
    ("SELECT", Mark::Select),
    ("SET", Mark::Set),
    ("TABLE", Mark::Table),
    ("THEN", Mark::Then),
    ("TRANSACTION", Mark::Transaction),
    ("UPDATE", Mark::Update),
    ("VALUES", Mark::Values),
    ("WHEN", Mark::When),
    ("WHERE", Mark::Where),
];

// The words of SQL that stand outside of the grammar, and EXISTS, which stands in it at one place alone.
const OUTSIDE_WORDS: [&str; 28] = [
    "ATTACH",
    "AUTOINCREMENT",
    "CHECK",
    "CONSTRAINT",
    "DETACH",
    "DROP",
    "ESCAPE",
    "EXCEPT",
    "EXISTS",
    "EXPLAIN",
    "FOREIGN",
    "FULL",
    "GLOB",
    "INDEX",
    "INTERSECT",
    "NATURAL",
    "PRAGMA",
    "REFERENCES",
    "REGEXP",
    "RETURNING",
    "RIGHT",
    "SAVEPOINT",
    "TRIGGER",
    "UNION",
    "UNIQUE",
    "USING",
    "WINDOW",
    "WITH",
];

// The signs of the grammar.
const SIGNS: [(&str, Mark); 18] = [
    ("(", Mark::Open),
    (")", Mark::Close),
    (",", Mark::Comma),
    (".", Mark::Dot),
    ("*", Mark::Star),
    ("+", Mark::Plus),
    ("-", Mark::Minus),
    ("/", Mark::Slash),
    ("%", Mark::Percent),
    ("||", Mark::Bars),
    ("<", Mark::Less),
    ("<=", Mark::AtMost),
    (">", Mark::Greater),
    (">=", Mark::AtLeast),
    ("=", Mark::Equal),
    ("==", Mark::DoubleEqual),
    ("<>", Mark::Unequal),
    ("!=", Mark::BangEqual),
];

fn is_written(written: &str, word: &[u8]) -> bool
    ensures { result ≡ str_eq_ignore_ascii_case written.now word.now }
{
    written.as_bytes().eq_ignore_ascii_case(word)
}

fn marked(table: &[(&str, Mark)], word: &[u8]) -> Option<Mark>
    ensures { result ≡ lookup (λ written. str_eq_ignore_ascii_case written.now word.now) table.now }
{
    for (written, mark) in table {
        if is_written(written, word) {
            return Some(*mark);
        }
    }
    None
}

/// The word of the grammar that is spelled so, ASCII case ignored.
pub fn word(bytes: &[u8]) -> Option<Mark>
    ensures { result ≡ marked words bytes.now }
{
    marked(&WORDS, bytes)
}

/// The sign that is spelled so.
pub fn sign(bytes: &[u8]) -> Option<Mark>
    ensures { result ≡ marked signs bytes.now }
{
    marked(&SIGNS, bytes)
}

fn written<'a>(words: &[&'a str], word: &[u8]) -> Option<&'a str>
    ensures { option_copied result ≡ find (λ written. str_eq_ignore_ascii_case written word.now) (map (λ w. w.now) words.now) }
{
    for written in words {
        if is_written(written, word) {
            return Some(written);
        }
    }
    None
}

/// The word of SQL outside of the grammar, or EXISTS, that is spelled so, ASCII case ignored; in upper case.
pub fn outside_word(word: &[u8]) -> Option<&'static str>
    ensures { option_copied result ≡ outside_word word.now }
{
    written(&OUTSIDE_WORDS, word)
}
