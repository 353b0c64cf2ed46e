//! The name of a type.

ghost use Rattle.std.specs.Prelude.{◌≡◌, IfOk};
ghost use Rattle.std.specs.List.{join_with_byte};

use cr_value::text::Text;
use std::alloc::{AllocError, Global};

/// The words of a type with one space between each two, as SQLite keeps a column's declared type ("Datatypes In SQLite");
/// the empty text where there are none. `AllocError` where memory runs out.
#[tactic(auto, using(crate::proofs::Joined::joined, crate::proofs::Joined::one_more, crate::proofs::Joined::space_utf8))]
pub fn type_name(alloc: Global, words: &[Text]) -> Result<Text, AllocError>
    ensures { IfOk result (λ name. name ≡ join_with_byte 32 words.now) }
{
    let mut name = String::new(alloc);
    let mut between = "";
    for word in words {
        name.push_str(between)?;
        name.push_str(word.as_str())?;
        between = " ";
    }
    Ok(Text::new(name))
}
