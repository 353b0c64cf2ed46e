//! A policy of plain rules: what READ of a column answers, and how many changes a commit may have.

ghost use Rattle.std.specs.Prelude.{◌≡◌, ◌≤◌, false, find, OnOk, OnErr, IfOk, IsOk};
ghost use Rattle.std.specs.Option.{option_copied};
ghost use Rattle.std.specs.Vec.{vec_len, vec_capacity};
ghost use Rattle.cr_guard.specs.Policy.{is_kept, wants_memory, with_rule, with_read, without, no_rules, folded_rule, read_answer, rule_answer, passes, speaks_of};

use crate::action::{Action, Auth};
use cr_host::name::folds_to;
use cr_value::text::Text;
use std::alloc::{AllocError, Global};
use std::marker::Model;

/// What READ of a column answers.
#[derive(Debug, Drop)]
pub struct ReadRule {
    /// The name of the table, its ASCII letters in either case.
    pub table: Text,
    /// The name of the column, its ASCII letters in either case.
    pub column: Text,
    /// The answer; OK takes an earlier rule of the column away.
    pub answer: Auth,
}

/// A rule of a policy.
#[derive(Debug, Drop)]
pub enum PolicyRule {
    /// What READ of a column answers, in place of an earlier rule of that column.
    Read(ReadRule),
    /// How many changes a commit may have, in place of an earlier number; `None` is as many as there are.
    MaxChanges(Option<u64>),
}

/// Plain rules, of which a later one takes the place of an earlier one of the same column.
#[derive(Debug, Drop)]
pub struct Policy {
    reads: Vec<ReadRule>,
    most_changes: Option<u64>,
}

impl Model for Policy {
    ghost use Rattle.cr_guard.specs.Policy.{Rules};

    ghost Value = { Rules };

    ghost view = { λ p. record { reads = p.reads.items; most_changes = p.most_changes } };
}

// Whether a rule is of that column.
fn speaks_of(rule: &ReadRule, table: &str, column: &str) -> bool
    ensures { result ≡ speaks_of table.now column.now rule.now }
{
    folds_to(table, rule.table.as_str()) && folds_to(column, rule.column.as_str())
}

fn folded_rule(alloc: Global, rule: &ReadRule) -> Result<ReadRule, AllocError>
    ensures { IfOk result (λ r. r ≡ folded_rule rule.now) }
{
    Ok(ReadRule {
        table: Text::folded(alloc, rule.table.as_str())?,
        column: Text::folded(alloc, rule.column.as_str())?,
        answer: rule.answer,
    })
}

// Takes the rules of that column out, and leaves their room.
fn take_out(rules: &mut Vec<ReadRule>, table: &str, column: &str)
    ensures rest { rules.new.items ≡ without table.now column.now rules.old.items }
    ensures len { vec_len rules.new ≤ vec_len rules.old }
    ensures room { vec_capacity rules.new ≡ vec_capacity rules.old }
{
    rules.retain(|rule| !speaks_of(rule, table, column));
}

fn set_read(alloc: Global, rules: &mut Vec<ReadRule>, rule: &ReadRule) -> Result<(), AllocError>
    ensures ok { OnOk result (rules.new.items ≡ with_read rule.now rules.old.items) }
    ensures err { OnErr result (rules.new.items ≡ rules.old.items) }
    ensures free { is_kept rule.now.answer ≡ false → IsOk result }
{
    let (table, column) = (rule.table.as_str(), rule.column.as_str());
    if rule.answer == Auth::Ok {
        take_out(rules, table, column);
        return Ok(());
    }
    let added = folded_rule(alloc, rule)?;
    // Memory first, so that nothing is taken out where there is none.
    rules.reserve(1)?;
    take_out(rules, table, column);
    rules.push(added)?;
    Ok(())
}

impl Policy {
    /// A policy without rules.
    pub fn new(alloc: Global) -> Self
        ensures { result ≡ no_rules }
    {
        Policy {
            reads: Vec::new(alloc),
            most_changes: None,
        }
    }

    /// Adds a rule, which takes the place of an earlier one of its kind and column. Refused for want of memory, it
    /// changes nothing; a rule that answers OK, and a number of changes, want none.
    pub fn set(&mut self, alloc: Global, rule: &PolicyRule) -> Result<(), AllocError>
        ensures ok { OnOk result (self.new ≡ with_rule rule.now self.old) }
        ensures err { OnErr result (self.new ≡ self.old) }
        ensures free { wants_memory rule.now ≡ false → IsOk result }
    {
        match rule {
            PolicyRule::Read(rule) => set_read(alloc, &mut self.reads, rule),
            PolicyRule::MaxChanges(most) => {
                self.most_changes = *most;
                Ok(())
            }
        }
    }

    /// What the rules answer of an action: of READ of a column what the rule of that column answers, the ASCII letters
    /// of both names in either case, and OK of all else. READ of a table and the empty column is answered by a rule of
    /// the empty column alone. Takes no memory.
    pub fn answer(&self, action: Action, a: &str, b: &str) -> Auth
        ensures { result ≡ rule_answer self.now action a.now b.now }
    {
        match action {
            Action::Read => self.read_answer(a, b),
            _ => Auth::Ok,
        }
    }

    fn read_rule(&self, table: &str, column: &str) -> Option<&ReadRule>
        ensures { option_copied result ≡ find (speaks_of table.now column.now) self.now.reads }
    {
        self.reads
            .iter()
            .find(|rule| speaks_of(rule, table, column))
    }

    fn read_answer(&self, table: &str, column: &str) -> Auth
        ensures { result ≡ read_answer self.now.reads table.now column.now }
    {
        match self.read_rule(table, column) {
            Some(rule) => rule.answer,
            None => Auth::Ok,
        }
    }

    /// Whether a commit has more changes than it may. Takes no memory.
    pub fn refuses(&self, count: usize) -> bool
        ensures { result ≡ passes self.now.most_changes count }
    {
        match self.most_changes {
            Some(most) => most < count as u64,
            None => false,
        }
    }
}
