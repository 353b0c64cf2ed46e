//! Which rows LIMIT and OFFSET leave, and which result column a number stands for.

ghost use Rattle.std.specs.Prelude.{◌≡◌};
ghost use Rattle.std.specs.Option.{option_and_then, option_map_or};
ghost use Rattle.cr_resolve.specs.Queries.{place_of, count_limit, offset_of};

use cr_tree::statement::Limit;

/// The place from 0 of the result column that a number stands for, of so many; none where the number is no column's.
pub fn place_of(number: &i64, count: usize) -> Option<usize>
    ensures { result ≡ place_of number.now count }
{
    let place = usize::try_from(*number).ok()?.checked_sub(1)?;
    if place < count { Some(place) } else { None }
}

/// The greatest number of rows; none without a LIMIT, and where its number is negative.
pub fn count_limit(limit: &Option<Limit>) -> Option<u64>
    ensures { result ≡ option_and_then (λ l. count_limit l.count) limit.now }
{
    let limit = limit.as_ref()?;
    u64::try_from(limit.count).ok()
}

/// The number of rows that are left out before the first: none without an OFFSET, and where its number is negative.
pub fn offset_of(limit: &Option<Limit>) -> u64
    ensures { result ≡ option_map_or (λ l. offset_of l.offset) limit.now 0 }
{
    match limit {
        Some(limit) => match limit.offset {
            Some(offset) => u64::try_from(offset).unwrap_or(0),
            None => 0,
        },
        None => 0,
    }
}
