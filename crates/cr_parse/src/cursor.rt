//! The symbols that are left.

ghost use Rattle.std.specs.Prelude.{◌≡◌, length};
ghost use Rattle.std.specs.Option.{option_copied};
ghost use Rattle.cr_tree.specs.Reading as spec;
ghost use Rattle.cr_parse.specs.Given.{Gives, Tells};

use crate::fault::Fault;
use cr_tree::symbol::{Mark, Symbol};
use cr_value::text::Text;
use std::alloc::Global;
use std::marker::Model;

/// The symbols that are left.
#[derive(Drop)]
pub struct Cursor<'a> {
    rest: &'a [Symbol],
}

impl<'a> Model for Cursor<'a> {
    ghost use Rattle.std.specs.Prelude.{List};
    ghost use Rattle.cr_tree.specs.declared.symbol.Symbol.{Symbol};

    ghost Value = { List Symbol };

    ghost view = { λ c. c.rest.now };
}

impl<'a> Cursor<'a> {
    pub fn new(symbols: &'a [Symbol]) -> Cursor<'a>
        ensures { result ≡ symbols.now }
    {
        Cursor { rest: symbols }
    }

    pub fn len(&self) -> usize
        ensures { result ≡ length self.now }
    {
        self.rest.len()
    }

    pub fn peek(&self) -> Option<&'a Symbol>
        ensures { option_copied result ≡ spec.head self.now }
    {
        match self.rest {
            [] => None,
            [symbol, ..] => Some(symbol),
        }
    }

    pub fn take(&mut self)
        ensures { self.new ≡ spec.rest_of self.old }
    {
        if let [_, rest @ ..] = self.rest {
            self.rest = rest;
        }
    }

    /// What is left after the next symbol, to look further ahead.
    pub fn after_next(&self) -> Cursor<'a>
        ensures { result ≡ spec.rest_of self.now }
    {
        match self.rest {
            [] => Cursor { rest: &[] },
            [_, rest @ ..] => Cursor { rest },
        }
    }

    pub fn sees(&self, mark: Mark) -> bool
        ensures { result ≡ spec.sees mark self.now }
    {
        match self.rest {
            [Symbol::Mark(next), ..] => cr_tree::symbol::same_mark(mark, *next),
            _ => false,
        }
    }

    pub fn sees_name(&self) -> bool
        ensures { result ≡ spec.sees_name self.now }
    {
        matches!(self.rest, [Symbol::Name(_), ..])
    }

    /// Takes a mark if it comes next.
    #[tactic(auto, unfolding(cr_tree::specs::Reading::eat))]
    pub fn eat(&mut self, mark: Mark) -> bool
        ensures { spec.eat mark self.old ≡ spec.Reads result self.new }
    {
        let found = self.sees(mark);
        if found {
            self.take();
        }
        found
    }

    #[tactic(auto, unfolding(cr_tree::specs::Reading::expect))]
    pub fn expect(&mut self, mark: Mark) -> Result<(), Fault>
        ensures { Tells (λ _. tt) (spec.expect mark self.old) result self.new }
    {
        if self.sees(mark) {
            self.take();
            Ok(())
        } else {
            Err(Fault::Syntax)
        }
    }

    #[tactic(auto, unfolding(cr_tree::specs::Reading::name))]
    pub fn name(&mut self, alloc: Global) -> Result<Text, Fault>
        ensures { Gives (λ n. n) (spec.name self.old) result self.new }
    {
        let Some(Symbol::Name(name)) = self.peek() else {
            return Err(Fault::Syntax);
        };
        let name = name.copy(alloc)?;
        self.take();
        Ok(name)
    }
}
