//! How far bytes of one kind go on.

ghost use Rattle.std.specs.Prelude.{◌≡◌, ◌≤◌, ◌==◌, not, false, length, IfSome};
ghost use Rattle.std.specs.List.{prefix_len};
ghost use Rattle.std.specs.Char.{is_ascii_digit, is_ascii_hexdigit};
ghost use Rattle.cr_lex.specs.Texts.{is_start, is_more};
ghost use Rattle.cr_lex.specs.Reading.{closing, comment_len};

pub fn is_start(c: u8) -> bool
    ensures { result ≡ is_start c }
{
    c.is_ascii_alphabetic() || c == b'_' || 0x80 <= c
}

fn is_more(c: u8) -> bool
    ensures { result ≡ is_more c }
{
    is_start(c) || c.is_ascii_digit() || c == b'$'
}

pub fn digits_len(bytes: &[u8]) -> usize
    ensures value { result ≡ prefix_len is_ascii_digit bytes.now }
    ensures within { result ≤ length bytes.now }
{
    for (at, c) in bytes.iter().enumerate() {
        if !c.is_ascii_digit() {
            return at;
        }
    }
    bytes.len()
}

pub fn hex_digits_len(bytes: &[u8]) -> usize
    ensures value { result ≡ prefix_len is_ascii_hexdigit bytes.now }
    ensures within { result ≤ length bytes.now }
{
    for (at, c) in bytes.iter().enumerate() {
        if !c.is_ascii_hexdigit() {
            return at;
        }
    }
    bytes.len()
}

pub fn word_len(bytes: &[u8]) -> usize
    ensures value { result ≡ prefix_len is_more bytes.now }
    ensures within { result ≤ length bytes.now }
{
    for (at, c) in bytes.iter().enumerate() {
        if !is_more(*c) {
            return at;
        }
    }
    bytes.len()
}

pub fn len_before(bytes: &[u8], end: u8) -> usize
    ensures value { result ≡ prefix_len (λ c. not (c == end)) bytes.now }
    ensures within { result ≤ length bytes.now }
{
    for (at, c) in bytes.iter().enumerate() {
        if *c == end {
            return at;
        }
    }
    bytes.len()
}

// How many bytes the closing quote ends, or none if it isn't there.
#[tactic(auto, using(crate::proofs::Loops::closing_more, crate::proofs::Loops::closing_ends), unfolding(crate::specs::Reading::closing))]
pub fn closing(bytes: &[u8], quote: u8) -> Option<usize>
    ensures value { result ≡ closing quote false 0 bytes.now }
    ensures within { IfSome result (λ len. len ≤ length bytes.now) }
{
    let mut after_quote = false;
    for (at, c) in bytes.iter().enumerate() {
        if *c == quote {
            after_quote = !after_quote;
        } else if after_quote {
            return Some(at);
        }
    }
    if after_quote { Some(bytes.len()) } else { None }
}

// How many bytes the end of a comment ends, or all.
#[tactic(auto, using(crate::proofs::Loops::comment_more, crate::proofs::Loops::comment_ends), unfolding(crate::specs::Reading::comment_len))]
pub fn comment_len(bytes: &[u8]) -> usize
    ensures value { result ≡ comment_len false 0 bytes.now }
    ensures within { result ≤ length bytes.now }
{
    let mut after_star = false;
    for (at, c) in bytes.iter().enumerate() {
        if after_star && *c == b'/' {
            return at + 1;
        }
        after_star = *c == b'*';
    }
    bytes.len()
}
