//! The functions that the engine has itself.

ghost use Rattle.std.specs.Prelude.{◌≡◌};
ghost use Rattle.cr_host.specs.BuiltIn.{is_built_in_scalar, is_built_in_aggregate, is_built_in_function, takes_one, takes_two, takes_two_or_more, is_aggregate};

use crate::name::folds_to;

/// Whether the engine has a scalar function of that name, the ASCII letters in either case, for calls of that many
/// arguments. "Built-In Scalar SQL Functions" of SQLite, those that this project keeps.
pub fn is_built_in_scalar(name: &str, count: usize) -> bool
    ensures { result ≡ is_built_in_scalar name.now count }
{
    takes_one(name) && count == 1
        || takes_two(name) && count == 2
        || takes_two_or_more(name) && count >= 2
}

/// Whether the engine has an aggregate of that name for calls of that many arguments; `count(*)`, which has no
/// argument, is not asked for here. "Built-in Aggregate Functions" of SQLite, those that this project keeps.
pub fn is_built_in_aggregate(name: &str, count: usize) -> bool
    ensures { result ≡ is_built_in_aggregate name.now count }
{
    is_aggregate(name) && count == 1
}

/// Whether the engine has a function of that name, whatever the count of arguments.
pub fn is_built_in_function(name: &str) -> bool
    ensures { result ≡ is_built_in_function name.now }
{
    takes_one(name) || takes_two(name) || takes_two_or_more(name) || is_aggregate(name)
}

fn takes_one(name: &str) -> bool
    ensures { result ≡ takes_one name.now }
{
    folds_to(name, "abs")
        || folds_to(name, "hex")
        || folds_to(name, "length")
        || folds_to(name, "lower")
        || folds_to(name, "upper")
        || folds_to(name, "typeof")
}

fn takes_two(name: &str) -> bool
    ensures { result ≡ takes_two name.now }
{
    folds_to(name, "ifnull") || folds_to(name, "nullif")
}

fn takes_two_or_more(name: &str) -> bool
    ensures { result ≡ takes_two_or_more name.now }
{
    folds_to(name, "coalesce") || folds_to(name, "min") || folds_to(name, "max")
}

fn is_aggregate(name: &str) -> bool
    ensures { result ≡ is_aggregate name.now }
{
    folds_to(name, "count")
        || folds_to(name, "sum")
        || folds_to(name, "min")
        || folds_to(name, "max")
}
