//! The lines of a text.

/// The next line, without its line feed; the text becomes what follows it. `None` where nothing is left.
pub fn next_line<'a>(rest: &mut &'a str) -> Option<&'a str> {
    if rest.is_empty() {
        return None;
    }
    let (line, after) = rest.split_once('\n').unwrap_or((*rest, ""));
    *rest = after;
    Some(line)
}
