//! LIKE, over characters.

ghost use Rattle.std.specs.Prelude.{◌≡◌, ℕ, ◌+◌, ◌<◌, ◌&&◌, ◌||◌, false, length, get_or, chars, List, [], ◌∷◌, IfOk};
ghost use Rattle.cr_scalar.specs.Texts.{fits, matches};
ghost use Rattle.cr_scalar.specs.Like.{MatchesEnds};

use std::alloc::{AllocError, Global};

// Whether a character is one that a character of the pattern stands for: `_` stands for any, another for itself, ASCII
// case ignored.
fn fits(wanted: char, found: char) -> bool
    ensures { result ≡ fits wanted found }
{
    wanted == '_' || wanted.eq_ignore_ascii_case(&found)
}

// The characters of a text.
fn characters(alloc: Global, text: &str) -> Result<Vec<char>, AllocError>
    ensures { IfOk result (λ v. v.items ≡ chars text.now) }
{
    let mut all = Vec::new(alloc);
    for c in text.chars() {
        all.push(c)?;
    }
    Ok(all)
}

fn both(a: bool, b: bool) -> bool
    ensures { result ≡ (a && b) }
{
    a && b
}

// From the ends of the text that the rest of a pattern matches to those that it matches with a character before it.
fn before_one(ends: &mut [bool], text: &[char], wanted: char)
    requires { length ends.old ≡ length text.now + 1 }
    ensures len { length ends.new ≡ length ends.old }
    ensures each { (k : ℕ) → k < length text.now → get_or ends.new k false ≡ (fits wanted (get_or text.now k 0) && get_or ends.old (k + 1) false) }
    ensures last { get_or ends.new (length text.now) false ≡ false }
{
    for at in 0..text.len() {
        ends[at] = both(fits(wanted, text[at]), ends[at + 1]);
    }
    ends[text.len()] = false;
}

// The same with `%` before it.
fn before_any(ends: &mut [bool])
    ensures len { length ends.new ≡ length ends.old }
    ensures each { (k : ℕ) → k + 1 < length ends.old → get_or ends.new k false ≡ (get_or ends.old k false || get_or ends.new (k + 1) false) }
    ensures last { (k : ℕ) → k + 1 ≡ length ends.old → get_or ends.new k false ≡ get_or ends.old k false }
{
    for back in 1..ends.len() {
        let at = ends.len() - 1 - back;
        ends[at] = ends[at] || ends[at + 1];
    }
}

fn before(ends: &mut [bool], text: &[char], wanted: char)
    requires { length ends.old ≡ length text.now + 1 }
    ensures { (ps : List ℕ) → MatchesEnds ps text.now ends.old → MatchesEnds (wanted ∷ ps) text.now ends.new }
{
    if wanted == '%' {
        before_any(ends);
    } else {
        before_one(ends, text, wanted);
    }
}

// The same with a whole pattern before it, from its last character to its first.
fn before_all(ends: &mut [bool], text: &[char], pattern: &[char])
    requires { MatchesEnds [] text.now ends.old }
    ensures { MatchesEnds pattern.now text.now ends.new }
{
    for at in 0..pattern.len() {
        before(ends, text, pattern[pattern.len() - 1 - at]);
    }
}

// The ends of a text that the empty pattern matches: the empty one.
fn ends_of(alloc: Global, text: &[char]) -> Result<Vec<bool>, AllocError>
    ensures { IfOk result (λ v. MatchesEnds [] text.now v.items) }
{
    let mut ends = Vec::new(alloc);
    for _turn in 0..text.len() {
        ends.push(false)?;
    }
    ends.push(true)?;
    Ok(ends)
}

/// Whether a text is as a pattern says: `%` stands for any run of characters, `_` for any one, and another character for
/// itself, ASCII case ignored. The time is at most the characters of the pattern times those of the text.
pub(crate) fn is_like(alloc: Global, text: &str, pattern: &str) -> Result<bool, AllocError>
    ensures { IfOk result (λ b. b ≡ matches (chars pattern.now) (chars text.now)) }
{
    let text = characters(alloc, text)?;
    let pattern = characters(alloc, pattern)?;
    let mut ends = ends_of(alloc, &text)?;
    before_all(&mut ends, &text, &pattern);
    Ok(ends[0])
}
