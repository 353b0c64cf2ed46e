//! Whether marks are such as a store holds.

ghost use Rattle.std.specs.Prelude.{◌≡◌, pos, ◌≤ℤ◌, Decides};
ghost use Rattle.std.specs.List.{AllByRecursion};
ghost use Rattle.std.specs.List.Sorted.{IsStrictlySortedBy};
ghost use Rattle.std.specs.Ordering.{is_lt};
ghost use Rattle.cr_cells.specs.Marks.{mark_cmp, AreMarks};

use cr_cells::marks::Mark;
use cr_value::order::cmp_bytes;

fn comes_before(mark: &Mark, next: &Mark) -> bool
    ensures { result ≡ is_lt (mark_cmp mark.now next.now) }
{
    cmp_bytes(&mark.0, &next.0).is_lt()
}

// Whether marks stand by their sites, one for each.
fn are_by_site(marks: &[Mark]) -> bool
    ensures { Decides result (IsStrictlySortedBy mark_cmp marks.now) }
{
    marks.is_sorted_by(|mark, next| comes_before(mark, next))
}

fn are_from_0(marks: &[Mark]) -> bool
    ensures { Decides result (AllByRecursion (λ m. pos 0 ≤ℤ m.1) marks.now) }
{
    marks.iter().all(|mark| mark.1 >= 0)
}

/// Whether marks stand by their sites, one for each, and none is below 0.
pub(crate) fn are_marks(marks: &[Mark]) -> bool
    ensures { Decides result (AreMarks marks.now) }
{
    are_by_site(marks) && are_from_0(marks)
}
