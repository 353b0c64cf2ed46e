//! Marks: for each peer's site the peer's version up to which its changes were taken.

ghost use Rattle.std.specs.Prelude.{◌≡◌, ◌++◌, filter, find, IfOk, OnOk};
ghost use Rattle.std.specs.Option.{option_copied};
ghost use Rattle.std.specs.Ordering.{is_lt};
ghost use Rattle.cr_lattice.specs.Check.{same_bytes};
ghost use Rattle.cr_cells.specs.Marks.{mark_cmp, seen_of, with_mark, marks_after};

use cr_lattice::change::Site;
use cr_value::order::{cmp_bytes, same_bytes};
use std::alloc::{AllocError, Global};

/// A peer's site and version.
pub type Mark = (Site, i64);

fn comes_before(a: &Mark, b: &Mark) -> bool
    ensures { result ≡ is_lt (mark_cmp a.now b.now) }
{
    cmp_bytes(&a.0, &b.0).is_lt()
}

fn mark_at<'a>(marks: &'a [Mark], site: &Site) -> Option<&'a Mark>
    ensures { option_copied result ≡ find (λ m. same_bytes m.0 site.now) marks.now }
{
    marks.iter().find(|mark| same_bytes(&mark.0, site))
}

/// The version of a site's mark, 0 where there is none.
#[tactic(auto, unfolding(crate::specs::Marks::seen_of))]
pub fn seen_of(marks: &[Mark], site: &Site) -> i64
    ensures { result ≡ seen_of marks.now site.now }
{
    match mark_at(marks, site) {
        Some(mark) => mark.1,
        None => 0,
    }
}

fn add_before(out: &mut Vec<Mark>, marks: &[Mark], mark: &Mark) -> Result<(), AllocError>
    ensures { OnOk result (out.new.items ≡ out.old.items ++ filter (λ o. is_lt (mark_cmp o mark.now)) marks.now) }
{
    for other in marks {
        if comes_before(other, mark) {
            out.push(*other)?;
        }
    }
    Ok(())
}

fn add_after(out: &mut Vec<Mark>, marks: &[Mark], mark: &Mark) -> Result<(), AllocError>
    ensures { OnOk result (out.new.items ≡ out.old.items ++ filter (λ o. is_lt (mark_cmp mark.now o)) marks.now) }
{
    for other in marks {
        if comes_before(mark, other) {
            out.push(*other)?;
        }
    }
    Ok(())
}

/// The marks with one more, in place of the mark of its site.
#[tactic(auto, unfolding(crate::specs::Marks::with_mark))]
fn with_mark(alloc: Global, marks: &[Mark], mark: Mark) -> Result<Vec<Mark>, AllocError>
    ensures { IfOk result (λ v. v.items ≡ with_mark marks.now mark) }
{
    let mut out = Vec::new(alloc);
    add_before(&mut out, marks, &mark)?;
    out.push(mark)?;
    add_after(&mut out, marks, &mark)?;
    Ok(out)
}

/// The marks after a commit.
pub fn marks_after(
    alloc: Global,
    marks: &[Mark],
    mark: Option<Mark>,
) -> Result<Vec<Mark>, AllocError>
    ensures { IfOk result (λ v. v.items ≡ marks_after marks.now mark) }
{
    match mark {
        Some(mark) => with_mark(alloc, marks, mark),
        None => Vec::from_slice(alloc, marks),
    }
}
