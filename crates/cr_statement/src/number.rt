//! Integers.

ghost use Rattle.std.specs.Prelude.{◌≡◌, ◌^◌, pos, neg_ℤ, if◌then◌else◌, nat_le, Some, None};
ghost use Rattle.cr_parse.specs.Given.{Tells};
ghost use Rattle.cr_statement.specs.Statements as language;
ghost use Rattle.cr_statement.specs.Reading as reading;

use cr_parse::cursor::Cursor;
use cr_parse::fault::Fault;
use cr_tree::symbol::Symbol;

fn int_of(symbol: &Symbol) -> Option<i64>
    ensures { result ≡ language.int_of symbol.now }
{
    match symbol {
        Symbol::Number(n) if *n < 1 << 63 => Some(*n as i64),
        Symbol::Bits(n) => Some(*n),
        _ => None,
    }
}

// The integer that a symbol is behind a minus.
fn negative_of(symbol: &Symbol) -> Option<i64>
    ensures { result ≡ language.negative_of symbol.now }
{
    match symbol {
        Symbol::Number(n) => below_zero(*n),
        Symbol::Bits(n) => n.checked_neg(),
        _ => None,
    }
}

fn below_zero(n: u64) -> Option<i64>
    ensures { result ≡ (if nat_le n (2 ^ 63) then Some (neg_ℤ (pos n)) else None) }
{
    if n < 1 << 63 {
        Some(-(n as i64))
    } else if n == 1 << 63 {
        Some(i64::MIN)
    } else {
        None
    }
}

/// An integer without a sign.
pub fn int(tokens: &mut Cursor<'_>) -> Result<i64, Fault>
    ensures { Tells (λ x. x) (reading.one_of language.int_of tokens.old) result tokens.new }
{
    let Some(symbol) = tokens.peek() else {
        return Err(Fault::Syntax);
    };
    let Some(int) = int_of(symbol) else {
        return Err(Fault::Syntax);
    };
    tokens.take();
    Ok(int)
}

/// What an integer is behind a minus.
pub fn negative(tokens: &mut Cursor<'_>) -> Result<i64, Fault>
    ensures { Tells (λ x. x) (reading.one_of language.negative_of tokens.old) result tokens.new }
{
    let Some(symbol) = tokens.peek() else {
        return Err(Fault::Syntax);
    };
    let Some(int) = negative_of(symbol) else {
        return Err(Fault::Syntax);
    };
    tokens.take();
    Ok(int)
}
