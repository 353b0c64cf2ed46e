//! Tokens, and why a text is refused.

use std::alloc::{AllocError, AllocFailed};
use thiserror::Error;

/// What a token is.
#[derive(Clone, Copy, Debug, PartialEq, Eq)]
pub enum TokenKind {
    /// A word, or a name in `"..."`, `` `...` `` or `[...]`.
    Ident,
    /// Decimal digits, or `0x` and hexadecimal digits.
    Int,
    /// Digits with a point, an exponent or both.
    Real,
    /// `'...'`.
    Text,
    /// `x'...'` with an even number of hexadecimal digits.
    Blob,
    /// `?`, or `?` and digits.
    Param,
    /// An operator or a sign.
    Op,
    /// A quoted name, text or blob whose end isn't there.
    Open,
    /// What begins no other token.
    Illegal,
}

/// A token, and the bytes of the source that it is: from `from` up to `to`.
#[derive(Clone, Copy, Debug, PartialEq, Eq)]
pub struct Token {
    pub kind: TokenKind,
    pub from: usize,
    pub to: usize,
}

/// Why there are no tokens.
#[derive(Clone, Copy, Debug, PartialEq, Eq, Error)]
pub enum LexError {
    /// Memory ran out.
    #[error("out of memory")]
    Memory,
    /// The text is over 1,000,000 bytes.
    #[error("the text is over 1,000,000 bytes")]
    Limit,
}

impl From<AllocError> for LexError {
    ghost use Rattle.std.specs.Prelude.{◌≡◌};
    ghost use Rattle.cr_lex.specs.declared.token.LexError.TheVariants.{Memory};

    ghost from_gives = { λ _ e. e ≡ Memory };

    fn from(_e: AllocError) -> LexError {
        LexError::Memory
    }
}

impl<T: Drop> From<AllocFailed<T>> for LexError {
    ghost use Rattle.std.specs.Prelude.{◌≡◌};
    ghost use Rattle.cr_lex.specs.declared.token.LexError.TheVariants.{Memory};

    ghost from_gives = { λ _ e. e ≡ Memory };

    fn from(_e: AllocFailed<T>) -> LexError {
        LexError::Memory
    }
}
