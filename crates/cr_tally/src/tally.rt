//! An aggregate: what it gives of the rows that were seen so far.

ghost use Rattle.std.specs.Prelude.{◌≡◌, ◌∷◌, ◌++◌, [], true, false, map, IsTrue, List, Ok, IfOk};
ghost use Rattle.std.specs.List.{AllByRecursion, AllZip};
ghost use Rattle.cr_value.specs.declared.value.Value.{Value as Content};
ghost use Rattle.std.specs.Option.{ForSome};
ghost use Rattle.cr_scalar.specs.Functions.{all_of};
ghost use Rattle.cr_scalar.specs.Meaning.{bounded, byte_limit};
ghost use Rattle.cr_expr.specs.Eval.{each};
ghost use Rattle.cr_expr.specs.Eval as eval;
ghost use Rattle.cr_expr.specs.Setting.{setting};
ghost use Rattle.cr_tally.specs.Tallies.{AreArguments, IsAlone, gives, is_built_in, is_count};

use crate::show::Call;
use cr_expr::eval::eval_row;
use cr_expr::given::{Given, Hosted};
use cr_host::functions::Functions;
use cr_lattice::table::{Items, Row};
use cr_scalar::aggregate::aggregate;
use cr_scalar::fault::EvalFault;
use cr_select::aggregates::has_aggregate;
use cr_term::expr::Expr;
use cr_term::operator::Aggregate;
use cr_value::packing::SIZE_LIMIT;
use cr_value::value::Value;
use std::alloc::{AllocError, Global};

/// An aggregate, and what it gives of the rows that were seen so far.
#[derive(Drop)]
pub struct Tally<'q> {
    call: Call<'q>,
    value: Value,
}

fn is_built_in(kind: &Aggregate) -> bool
    ensures { result ≡ is_built_in kind.now }
{
    !matches!(kind, Aggregate::Host(_))
}

fn is_count(kind: &Aggregate) -> bool
    ensures { result ≡ is_count kind.now }
{
    matches!(kind, Aggregate::CountAll | Aggregate::Count)
}

// Whether no aggregate stands in an expression.
fn is_alone(expr: &Expr) -> bool
    ensures { result ≡ true → IsAlone expr.now }
{
    !has_aggregate(expr)
}

// Whether none stands in one of several.
fn are_alone(exprs: &[Expr]) -> bool
    ensures { result ≡ true → AllByRecursion IsAlone exprs.now }
{
    for expr in exprs {
        if !is_alone(expr) {
            return false;
        }
    }
    true
}

// Whether a value is within the limit of 1,000,000 bytes.
fn is_small(value: &Value) -> bool
    ensures { IsTrue result → bounded byte_limit value.now ≡ Ok value.now }
{
    value.byte_len() <= SIZE_LIMIT
}

// A row of one value.
fn row_of(alloc: Global, value: Value) -> Result<Row, AllocError>
    ensures { IfOk result (λ row. row ≡ value ∷ []) }
{
    let mut values = Vec::new(alloc);
    values.push(value)?;
    Ok(Items::new(values))
}

// The values of expressions, in memory of their own; `None` where one has a fault.
fn values_over<F: Functions>(
    alloc: Global,
    functions: &F,
    exprs: &[Expr],
    given: &Given<'_>,
) -> Result<Option<Row>, AllocError>
    requires { F.is_faithful functions.now }
    ensures { IfOk result (λ o. ForSome o (λ values. all_of (each (map eval.meaning exprs.now) (setting byte_limit (⟦<F as Hosted>⟧.means functions.now) given.now)) ≡ Ok values)) }
{
    match eval_row(alloc, exprs, given, functions) {
        Ok(values) => Ok(Some(values)),
        Err(EvalFault::Memory) => Err(AllocError),
        Err(_) => Ok(None),
    }
}

// The arguments on a row; `None` where one has a fault.
fn arguments_on<F: Functions>(
    alloc: Global,
    functions: &F,
    args: &[Expr],
    row: &[Value],
    params: &[Value],
) -> Result<Option<Row>, AllocError>
    requires { F.is_faithful functions.now }
    ensures { IfOk result (λ o. ForSome o (λ given. AllByRecursion IsAlone args.now → AreArguments (⟦<F as Hosted>⟧.means functions.now) params.now args.now row.now given)) }
{
    let given = Given {
        row,
        params,
        group: &[],
        shown: &[],
    };
    values_over(alloc, functions, args, &given)
}

// The arguments on each of some rows; `None` where one has a fault.
fn arguments_of<F: Functions>(
    alloc: Global,
    functions: &F,
    args: &[Expr],
    rows: &[Row],
    params: &[Value],
) -> Result<Option<Vec<Row>>, AllocError>
    requires { F.is_faithful functions.now }
    ensures { IfOk result (λ o. ForSome o (λ v. AllByRecursion IsAlone args.now → AllZip (AreArguments (⟦<F as Hosted>⟧.means functions.now) params.now args.now) rows.now v.items)) }
{
    let mut out = Vec::new(alloc);
    for row in rows {
        let Some(given) = arguments_on(alloc, functions, args, row.as_slice(), params)? else {
            return Ok(None);
        };
        out.push(given)?;
    }
    Ok(Some(out))
}

// What an aggregate gives of rows of arguments; `None` where it has a fault.
fn given<F: Functions>(
    alloc: Global,
    functions: &F,
    kind: &Aggregate,
    rows: Vec<Row>,
) -> Result<Option<Value>, AllocError>
    requires { F.is_faithful functions.now }
    ensures { IfOk result (λ o. ForSome o (λ v. gives (⟦<F as Hosted>⟧.means functions.now) kind.now rows.items ≡ Ok v)) }
{
    match aggregate(alloc, functions, kind, 1, Items::new(rows)) {
        Ok(value) => Ok(Some(value)),
        Err(EvalFault::Memory) => Err(AllocError),
        Err(_) => Ok(None),
    }
}

// A count, with that of further rows of arguments.
fn count_with<F: Functions>(
    alloc: Global,
    functions: &F,
    kind: &Aggregate,
    count: Value,
    rows: Vec<Row>,
) -> Result<Option<Value>, AllocError>
    requires functions { F.is_faithful functions.now }
    requires count { is_count kind.now ≡ true }
    ensures { IfOk result (λ o. ForSome o (λ v. (seen : List (List Content)) → gives (⟦<F as Hosted>⟧.means functions.now) kind.now seen ≡ Ok count
        → gives (⟦<F as Hosted>⟧.means functions.now) kind.now (seen ++ rows.items) ≡ Ok v)) }
{
    let Some(more) = given(alloc, functions, kind, rows)? else {
        return Ok(None);
    };
    let mut counts = Vec::new(alloc);
    counts.push(row_of(alloc, count)?)?;
    counts.push(row_of(alloc, more)?)?;
    given(alloc, functions, &Aggregate::Sum, counts)
}

// A sum, or the least or the greatest value, with further rows of arguments.
fn value_with<F: Functions>(
    alloc: Global,
    functions: &F,
    kind: &Aggregate,
    value: Value,
    mut rows: Vec<Row>,
) -> Result<Option<Value>, AllocError>
    requires functions { F.is_faithful functions.now }
    requires built_in { is_built_in kind.now ≡ true }
    requires no_count { is_count kind.now ≡ false }
    ensures { IfOk result (λ o. ForSome o (λ v. (seen : List (List Content)) → gives (⟦<F as Hosted>⟧.means functions.now) kind.now seen ≡ Ok value
        → gives (⟦<F as Hosted>⟧.means functions.now) kind.now (seen ++ rows.items) ≡ Ok v)) }
{
    let mut all = Vec::new(alloc);
    all.push(row_of(alloc, value)?)?;
    all.append(&mut rows)?;
    given(alloc, functions, kind, all)
}

// What an aggregate gives, with further rows of arguments; `None` where it has a fault.
fn next_value<F: Functions>(
    alloc: Global,
    functions: &F,
    kind: &Aggregate,
    value: Value,
    rows: Vec<Row>,
) -> Result<Option<Value>, AllocError>
    requires functions { F.is_faithful functions.now }
    requires built_in { is_built_in kind.now ≡ true }
    ensures { IfOk result (λ o. ForSome o (λ v. (seen : List (List Content)) → gives (⟦<F as Hosted>⟧.means functions.now) kind.now seen ≡ Ok value
        → gives (⟦<F as Hosted>⟧.means functions.now) kind.now (seen ++ rows.items) ≡ Ok v)) }
{
    if is_count(kind) {
        count_with(alloc, functions, kind, value, rows)
    } else {
        value_with(alloc, functions, kind, value, rows)
    }
}

impl<'q> Tally<'q> {
    ghost use Rattle.std.specs.Prelude.{◌≡◌, [], List, IfOk};
    ghost use Rattle.std.specs.Option.{ForSome};
    ghost use Rattle.cr_value.specs.declared.value.Value.{Value};
    ghost use Rattle.cr_tally.specs.Tallies.{Step, Tells, Worth};

    /// What an aggregate gives of no rows; `None` where it is none that SQLite has, or an aggregate stands in an argument.
    pub fn new<F: Functions>(
        alloc: Global,
        functions: &F,
        call: Call<'q>,
    ) -> Result<Option<Tally<'q>>, AllocError>
        requires { F.is_faithful functions.now }
        ensures { IfOk result (λ o. ForSome o (λ t. (t.call ≡ call.entry) × ((params : List Value) → Tells (⟦<F as Hosted>⟧.means functions.now) params [] t))) }
    {
        if !is_built_in(call.kind) || !are_alone(call.args) {
            return Ok(None);
        }
        match given(alloc, functions, call.kind, Vec::new(alloc))? {
            Some(value) => Ok(Some(Tally { call, value })),
            None => Ok(None),
        }
    }

    /// The same with more rows behind those that were seen so far; `None` where an argument or the aggregate has a fault.
    pub fn with<F: Functions>(
        self,
        alloc: Global,
        functions: &F,
        rows: &[Row],
        params: &[Value],
    ) -> Result<Option<Tally<'q>>, AllocError>
        requires { F.is_faithful functions.now }
        ensures { IfOk result (λ o. ForSome o (Step (⟦<F as Hosted>⟧.means functions.now) params.now rows.now self.entry)) }
    {
        let call = self.call;
        if !is_built_in(call.kind) {
            return Ok(None);
        }
        let Some(arguments) = arguments_of(alloc, functions, call.args, rows, params)? else {
            return Ok(None);
        };
        match next_value(alloc, functions, call.kind, self.value, arguments)? {
            Some(value) => Ok(Some(Tally { call, value })),
            None => Ok(None),
        }
    }

    /// What the aggregate gives of the rows that were seen; `None` where that is over the limit of 1,000,000 bytes.
    pub fn into_value(self) -> Option<Value>
        ensures { ForSome result (Worth self.entry) }
    {
        if is_small(&self.value) {
            Some(self.value)
        } else {
            None
        }
    }
}
