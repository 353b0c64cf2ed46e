//! How many arguments a function takes.

ghost use Rattle.std.specs.Prelude.{◌≡◌};
ghost use Rattle.cr_host.specs.Names.{arity_of};

/// The greatest number of arguments that a function is registered for, beside any number.
pub const ARITY_LIMIT: i32 = 100;

/// How many arguments a function takes.
#[derive(Clone, Copy, Debug, PartialEq, Eq, Hash)]
pub enum Arity {
    /// Any number.
    Any,
    /// This number.
    Exactly(usize),
}

impl Arity {
    /// The arity that a number tells: -1 is any number, 0 to 100 that number, and others tell none.
    /// "Create Or Redefine SQL Functions" of SQLite's C interface has the same -1.
    pub fn of(number: i32) -> Option<Arity>
        ensures { result ≡ arity_of number }
    {
        if number == -1 {
            return Some(Arity::Any);
        }
        if number < 0 || number > ARITY_LIMIT {
            return None;
        }
        Some(Arity::Exactly(number as usize))
    }
}
