//! Names, literals, and names in a row.

ghost use Rattle.std.specs.Prelude.{◌≡◌, ◌<◌, ◌∷◌, [], ◌++◌, map, OnOk};
ghost use Rattle.std.specs.String.{string_bytes};
ghost use Rattle.std.specs.Fmt.{signed_decimal};
ghost use Rattle.cr_lex.specs.Tokens.{doubled};
ghost use Rattle.cr_print.specs.Pieces.{quoted, name, value, in_row};

use cr_value::text::Text;
use cr_value::value::Value;
use std::alloc::{AllocError, Global};

fn push_doubled(out: &mut String, quote: char, pair: &str, text: &str) -> Result<(), AllocError>
    requires pair { pair.now ≡ quote ∷ quote ∷ [] }
    requires ascii { quote < 128 }
    ensures { OnOk result (string_bytes out.new ≡ string_bytes out.old ++ doubled quote text.now) }
{
    let mut rest = text;
    while let Some((before, after)) = rest.split_once(quote) {
        out.push_str(before)?;
        out.push_str(pair)?;
        rest = after;
    }
    out.push_str(rest)?;
    Ok(())
}

fn push_text(out: &mut String, text: &str) -> Result<(), AllocError>
    ensures { OnOk result (string_bytes out.new ≡ string_bytes out.old ++ quoted 39 text.now) }
{
    out.push_str("'")?;
    push_doubled(out, '\'', "''", text)?;
    out.push_str("'")
}

/// Appends a name in double quotes, each of its own doubled.
pub fn push_name(out: &mut String, text: &Text) -> Result<(), AllocError>
    ensures { OnOk result (string_bytes out.new ≡ string_bytes out.old ++ name text.now) }
{
    out.push_str("\"")?;
    push_doubled(out, '"', "\"\"", text.as_str())?;
    out.push_str("\"")
}

/// Appends a number in decimal.
pub fn push_int(alloc: Global, out: &mut String, number: i64) -> Result<(), AllocError>
    ensures { OnOk result (string_bytes out.new ≡ string_bytes out.old ++ signed_decimal number) }
{
    let digits = number.to_string(alloc)?;
    out.push_str(digits.as_str())
}

fn push_blob(alloc: Global, out: &mut String, blob: &[u8]) -> Result<(), AllocError>
    ensures { OnOk result (string_bytes out.new ≡ string_bytes out.old ++ value (Value.Blob blob.now)) }
{
    let digits = hex::encode_upper(alloc, blob)?;
    out.push_str("X'")?;
    out.push_str(digits.as_str())?;
    out.push_str("'")
}

/// Appends a value as a literal.
pub fn push_value(alloc: Global, out: &mut String, it: &Value) -> Result<(), AllocError>
    ensures { OnOk result (string_bytes out.new ≡ string_bytes out.old ++ value it.now) }
{
    match it {
        Value::Null => out.push_str("NULL"),
        Value::Int(n) => push_int(alloc, out, *n),
        Value::Text(text) => push_text(out, text.as_str()),
        Value::Blob(blob) => push_blob(alloc, out, blob.as_slice()),
    }
}

/// Appends names with a text between them.
#[tactic(auto, using(crate::proofs::Loops::rest_at))]
pub fn push_names(out: &mut String, between: &str, names: &[Text]) -> Result<(), AllocError>
    ensures { OnOk result (string_bytes out.new ≡ string_bytes out.old ++ in_row [] between.now (map name names.now)) }
{
    let mut before = "";
    for text in names {
        out.push_str(before)?;
        push_name(out, text)?;
        before = between;
    }
    Ok(())
}
