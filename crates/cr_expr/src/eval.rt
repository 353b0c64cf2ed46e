//! The value of an expression.

ghost use Rattle.std.specs.Prelude.{◌≡◌, get_or, IfOk, length, map, Some, false};
ghost use Rattle.std.specs.Option.{option_map};
ghost use Rattle.cr_value.specs.declared.value.Value.TheVariants.{Null};
ghost use Rattle.cr_scalar.specs.Functions.{all_of, first_value, call_of};
ghost use Rattle.cr_scalar.specs.Meaning.{Evaluates, and_then, bounded, byte_limit, of_host};
ghost use Rattle.cr_scalar.specs.Aggregates.{aggregate_of};
ghost use Rattle.cr_scalar.specs.Host.{orders};
ghost use Rattle.cr_scalar.specs.Compare.{compared};
ghost use Rattle.cr_scalar.specs.Numbers.{arithmetic_of, truth, truth_value};
ghost use Rattle.cr_scalar.specs.Texts.{cast_of, join_of, like_of};
ghost use Rattle.cr_expr.specs.Setting.{setting};
ghost use Rattle.cr_expr.specs.Eval.{eval_of, of_node, turned, told, logic_of, between_of, meaning, arm_of, each, equals, in_of, if_any, or_null, is_taken, taken, argument_rows};

use crate::given::{Given, Hosted};
use cr_host::functions::Functions;
use cr_lattice::table::{Items, Row};
use cr_scalar::aggregate::aggregate;
use cr_scalar::compare::{compare, is_null};
use cr_scalar::fault::EvalFault;
use cr_scalar::function::{call_built_in, call_host, takes_first};
use cr_scalar::number::{apply_unary, calculate, decides, is_true, join_truth, truth, truth_value};
use cr_scalar::operand::Operand;
use cr_scalar::text::{cast_value, join, like};
use cr_term::expr::{Expr, When};
use cr_term::operator::{Aggregate, Arithmetic, BuiltIn, Comparison, Logic, Meeting};
use cr_value::cast::CastTo;
use cr_value::packing::SIZE_LIMIT;
use cr_value::text::Text;
use cr_value::value::Value;
use sqlite_items::Boxed;
use std::alloc::{AllocError, Global};

// The value within the limit of 1,000,000 bytes.
fn within_limit<'a>(operand: Operand<'a>) -> Result<Operand<'a>, EvalFault>
    ensures { result ≡ bounded byte_limit operand.entry }
{
    if operand.get().byte_len() <= SIZE_LIMIT {
        Ok(operand)
    } else {
        Err(EvalFault::TooBig)
    }
}

/// The value at a place, NULL where there is none. Takes no memory.
pub fn value_at<'a>(values: &'a [Value], at: usize) -> Operand<'a>
    ensures { result ≡ get_or values.now at Null }
{
    match values.get(at) {
        Some(value) => Operand::standing(value),
        None => Operand::made(Value::Null),
    }
}

// Under NOT, or not.
fn turn(is_negated: bool, truth: Option<bool>) -> Option<bool>
    ensures { result ≡ turned is_negated truth }
{
    if is_negated { truth.map(|t| !t) } else { truth }
}

// The values in memory of their own.
#[tactic(auto, using(crate::proofs::Nodes::fault_through))]
fn own_all(alloc: Global, operands: Items<Operand<'_>>) -> Result<Row, AllocError>
    ensures { IfOk result (λ r. r ≡ operands.entry) }
{
    let mut values = Vec::new(alloc);
    for operand in operands.into_vec() {
        values.push(operand.into_value(alloc)?)?;
    }
    Ok(Items::new(values))
}

// Whether an arm of a CASE is taken: what stands after its WHEN is true, or equal to the operand, if there is one.
#[tactic(auto, using(crate::proofs::Nodes::fault_through))]
fn is_taken<F: Functions>(
    alloc: Global,
    functions: &F,
    operand: &Option<Operand<'_>>,
    meeting: &Meeting,
    when: &Value,
) -> Result<bool, EvalFault>
    requires { F.is_faithful functions.now }
    ensures { Evaluates (is_taken (orders (F.order_of functions.now)) operand.now meeting.now when.now) result }
{
    match operand {
        Some(operand) => {
            let equals = compare(
                alloc,
                functions,
                Comparison::Equal,
                meeting,
                operand.get(),
                when,
            )?;
            Ok(is_true(equals))
        }
        None => Ok(is_true(truth(when)?)),
    }
}

// An operand under a CAST.
fn cast<'a>(alloc: Global, to: CastTo, operand: Operand<'_>) -> Result<Operand<'a>, EvalFault>
    ensures { Evaluates (cast_of to operand.entry) result }
{
    cast_value(alloc, to, operand.get()).map(|value| Operand::made(value))
}

// An operator of two numbers.
fn calculated<'a>(
    op: Arithmetic,
    left: Operand<'_>,
    right: Operand<'_>,
) -> Result<Operand<'a>, EvalFault>
    ensures { result ≡ arithmetic_of op left.entry right.entry }
{
    calculate(op, left.get(), right.get()).map(|value| Operand::made(value))
}

// Two texts joined.
fn joined<'a>(
    alloc: Global,
    left: Operand<'_>,
    right: Operand<'_>,
) -> Result<Operand<'a>, EvalFault>
    ensures { Evaluates (join_of left.entry right.entry) result }
{
    join(alloc, left.get(), right.get()).map(|value| Operand::made(value))
}

// A text and a pattern.
fn matched<'a>(
    alloc: Global,
    is_negated: bool,
    text: Operand<'_>,
    pattern: Operand<'_>,
) -> Result<Operand<'a>, EvalFault>
    ensures { Evaluates (like_of is_negated text.entry pattern.entry) result }
{
    like(alloc, is_negated, text.get(), pattern.get()).map(|value| Operand::made(value))
}

// A comparison of two values.
fn compared<'a, F: Functions>(
    alloc: Global,
    functions: &F,
    op: Comparison,
    meeting: &Meeting,
    left: Operand<'_>,
    right: Operand<'_>,
) -> Result<Operand<'a>, AllocError>
    requires { F.is_faithful functions.now }
    ensures { IfOk result (λ v. v ≡ truth_value (compared (orders (F.order_of functions.now)) op meeting.now left.entry right.entry)) }
{
    let holds = compare(alloc, functions, op, meeting, left.get(), right.get());
    holds.map(|holds| Operand::made(truth_value(holds)))
}

/// The value of an expression over a row or a group: exactly what it means, with the first fault that is met from left to
/// right. Places out of range mean NULL.
#[cycle(eval)]
#[tactic(auto, using(crate::proofs::Nodes::one_node, crate::proofs::Nodes::fault_through))]
pub fn eval<'a, F: Functions>(
    alloc: Global,
    expr: &'a Expr,
    given: &Given<'a>,
    functions: &F,
) -> Result<Operand<'a>, EvalFault>
    requires { F.is_faithful functions.now }
    ensures { Evaluates (eval_of (setting byte_limit (⟦<F as Hosted>⟧.means functions.now) given.now) expr.now) result }
{
    within_limit(eval_node(alloc, expr, given, functions)?)
}

// The value of a node, which may be over the limit.
#[cycle(eval)]
#[tactic(auto, using(crate::proofs::Nodes::fault_through))]
fn eval_node<'a, F: Functions>(
    alloc: Global,
    expr: &'a Expr,
    given: &Given<'a>,
    functions: &F,
) -> Result<Operand<'a>, EvalFault>
    requires { F.is_faithful functions.now }
    ensures { Evaluates (of_node (setting byte_limit (⟦<F as Hosted>⟧.means functions.now) given.now) expr.now) result }
{
    match expr {
        Expr::Literal(value) => Ok(Operand::standing(value)),
        Expr::Param(n) => Ok(value_at(given.params, usize::from(*n).saturating_sub(1))),
        Expr::Column(column) => Ok(value_at(given.row, column.at)),
        Expr::Shown(n, _) => Ok(value_at(given.shown, *n)),
        Expr::SiteId(bytes) => Ok(Operand::made(Value::Blob(bytes.copy(alloc)?))),
        Expr::DbVersion(n) => Ok(Operand::made(Value::Int(*n))),
        Expr::Collate(operand, _) => eval(alloc, operand.get(), given, functions),
        Expr::Unary(op, operand) => apply_unary(*op, eval(alloc, operand.get(), given, functions)?),
        Expr::Cast(to, operand) => {
            let operand = eval(alloc, operand.get(), given, functions)?;
            cast(alloc, *to, operand)
        }
        Expr::Arithmetic(op, left, right) => {
            let left = eval(alloc, left.get(), given, functions)?;
            let right = eval(alloc, right.get(), given, functions)?;
            calculated(*op, left, right)
        }
        Expr::Join(left, right) => {
            let left = eval(alloc, left.get(), given, functions)?;
            let right = eval(alloc, right.get(), given, functions)?;
            joined(alloc, left, right)
        }
        Expr::Like(is_negated, text, pattern) => {
            let text = eval(alloc, text.get(), given, functions)?;
            let pattern = eval(alloc, pattern.get(), given, functions)?;
            matched(alloc, *is_negated, text, pattern)
        }
        Expr::Compare(op, meeting, left, right) => {
            let left = eval(alloc, left.get(), given, functions)?;
            let right = eval(alloc, right.get(), given, functions)?;
            Ok(compared(alloc, functions, *op, meeting, left, right)?)
        }
        Expr::Logic(op, left, right) => {
            let left = eval_truth(alloc, left.get(), given, functions)?;
            eval_right(alloc, right.get(), *op, left, given, functions)
        }
        Expr::Between(is_negated, low_meeting, high_meeting, operand, low, high) => {
            let operand = eval(alloc, operand.get(), given, functions)?;
            let low = eval(alloc, low.get(), given, functions)?;
            eval_below(
                alloc,
                high.get(),
                *is_negated,
                low_meeting,
                high_meeting,
                operand.get(),
                low.get(),
                given,
                functions,
            )
        }
        Expr::In(is_negated, meeting, operand, items) => {
            let operand = eval(alloc, operand.get(), given, functions)?;
            eval_in(
                alloc,
                items.as_slice(),
                *is_negated,
                meeting,
                operand.get(),
                given,
                functions,
            )
        }
        Expr::Case(operand, arms, otherwise) => {
            let operand = eval_if_any(alloc, operand, given, functions)?;
            let taken = eval_arms(alloc, arms.as_slice(), &operand, given, functions)?;
            match taken {
                Some(value) => Ok(value),
                None => eval_or_null(alloc, otherwise, given, functions),
            }
        }
        Expr::BuiltIn(function, args) => {
            eval_call(alloc, args.as_slice(), function, given, functions)
        }
        Expr::Host(name, args) => eval_host(alloc, args.as_slice(), name, given, functions),
        Expr::Aggregate(kind, args) => {
            eval_aggregate(alloc, args.as_slice(), kind, given, functions)
        }
    }
}

// AND or OR once its left side is known: the right side is looked at only where the left does not decide.
#[cycle(eval)]
#[tactic(auto, using(crate::proofs::Nodes::fault_through))]
fn eval_right<'a, F: Functions>(
    alloc: Global,
    right: &'a Expr,
    op: Logic,
    left: Option<bool>,
    given: &Given<'a>,
    functions: &F,
) -> Result<Operand<'a>, EvalFault>
    requires { F.is_faithful functions.now }
    ensures { let s = setting byte_limit (⟦<F as Hosted>⟧.means functions.now) given.now in
        Evaluates (told (logic_of op (Ok left) (and_then (eval_of s right.now) truth))) result }
{
    if decides(op, left) {
        return Ok(Operand::made(truth_value(left)));
    }
    let right = eval_truth(alloc, right, given, functions)?;
    Ok(Operand::made(truth_value(join_truth(op, left, right))))
}

// BETWEEN once the operand and the first bound have values: the second bound is looked at only where the first does not
// decide.
#[cycle(eval)]
#[tactic(auto, using(crate::proofs::Nodes::fault_through))]
fn eval_below<'a, F: Functions>(
    alloc: Global,
    high: &'a Expr,
    is_negated: bool,
    low_meeting: &Meeting,
    high_meeting: &Meeting,
    value: &Value,
    low: &Value,
    given: &Given<'a>,
    functions: &F,
) -> Result<Operand<'a>, EvalFault>
    requires { F.is_faithful functions.now }
    ensures { let s = setting byte_limit (⟦<F as Hosted>⟧.means functions.now) given.now in
        Evaluates (and_then (between_of s.host.order low_meeting.now high_meeting.now value.now (Ok low.now) (eval_of s high.now)) (λ t. Ok (truth_value (turned is_negated t)))) result }
{
    let above = compare(
        alloc,
        functions,
        Comparison::AtLeast,
        low_meeting,
        value,
        low,
    )?;
    if decides(Logic::And, above) {
        return Ok(Operand::made(truth_value(turn(is_negated, above))));
    }
    let high = eval(alloc, high, given, functions)?;
    let below = compare(
        alloc,
        functions,
        Comparison::AtMost,
        high_meeting,
        value,
        high.get(),
    )?;
    let within = join_truth(Logic::And, above, below);
    Ok(Operand::made(truth_value(turn(is_negated, within))))
}

// Whether an expression is true.
#[cycle(eval)]
#[tactic(auto, using(crate::proofs::Nodes::fault_through))]
fn eval_truth<'a, F: Functions>(
    alloc: Global,
    expr: &'a Expr,
    given: &Given<'a>,
    functions: &F,
) -> Result<Option<bool>, EvalFault>
    requires { F.is_faithful functions.now }
    ensures { Evaluates (and_then (eval_of (setting byte_limit (⟦<F as Hosted>⟧.means functions.now) given.now) expr.now) truth) result }
{
    truth(eval(alloc, expr, given, functions)?.get())
}

// Whether a value is among items, which are evaluated up to the first that is equal.
#[cycle(eval)]
#[tactic(auto, using(crate::proofs::Nodes::fault_through))]
fn eval_in<'a, F: Functions>(
    alloc: Global,
    items: &'a [Expr],
    is_negated: bool,
    meeting: &Meeting,
    value: &Value,
    given: &Given<'a>,
    functions: &F,
) -> Result<Operand<'a>, EvalFault>
    requires { F.is_faithful functions.now }
    ensures { let s = setting byte_limit (⟦<F as Hosted>⟧.means functions.now) given.now in
        Evaluates (and_then (in_of (equals s.host.order value.now meeting.now) (Some false) (each (map meaning items.now) s)) (λ t. Ok (truth_value (turned is_negated t)))) result }
{
    let mut so_far = Some(false);
    for item in items {
        if decides(Logic::Or, so_far) {
            return Ok(Operand::made(truth_value(turn(is_negated, so_far))));
        }
        let operand = eval(alloc, item, given, functions)?;
        let equals = compare(
            alloc,
            functions,
            Comparison::Equal,
            meeting,
            value,
            operand.get(),
        )?;
        so_far = join_truth(Logic::Or, so_far, equals);
    }
    Ok(Operand::made(truth_value(turn(is_negated, so_far))))
}

// The first value that is not NULL; what stands behind it is not evaluated.
#[cycle(eval)]
#[tactic(auto, using(crate::proofs::Nodes::fault_through))]
fn eval_first<'a, F: Functions>(
    alloc: Global,
    exprs: &'a [Expr],
    given: &Given<'a>,
    functions: &F,
) -> Result<Operand<'a>, EvalFault>
    requires { F.is_faithful functions.now }
    ensures { let s = setting byte_limit (⟦<F as Hosted>⟧.means functions.now) given.now in
        Evaluates (first_value (each (map meaning exprs.now) s)) result }
{
    for expr in exprs {
        let operand = eval(alloc, expr, given, functions)?;
        if !is_null(operand.get()) {
            return Ok(operand);
        }
    }
    Ok(Operand::made(Value::Null))
}

// The values of expressions, from left to right.
#[cycle(eval)]
#[tactic(auto, using(crate::proofs::Nodes::fault_through))]
fn eval_all<'a, F: Functions>(
    alloc: Global,
    exprs: &'a [Expr],
    given: &Given<'a>,
    functions: &F,
) -> Result<Items<Operand<'a>>, EvalFault>
    requires { F.is_faithful functions.now }
    ensures { let s = setting byte_limit (⟦<F as Hosted>⟧.means functions.now) given.now in
        Evaluates (all_of (each (map meaning exprs.now) s)) result }
{
    let mut operands = Vec::new(alloc);
    for expr in exprs {
        let operand = eval(alloc, expr, given, functions)?;
        operands.push(operand)?;
    }
    Ok(Items::new(operands))
}

/// The values of expressions, from left to right, in memory of their own: exactly what they mean, with the first fault that is met.
#[cycle(eval)]
#[tactic(auto, using(crate::proofs::Nodes::fault_through))]
pub fn eval_row<'a, F: Functions>(
    alloc: Global,
    exprs: &'a [Expr],
    given: &Given<'a>,
    functions: &F,
) -> Result<Row, EvalFault>
    requires { F.is_faithful functions.now }
    ensures { let s = setting byte_limit (⟦<F as Hosted>⟧.means functions.now) given.now in
        Evaluates (all_of (each (map meaning exprs.now) s)) result }
{
    let operands = eval_all(alloc, exprs, given, functions)?;
    Ok(own_all(alloc, operands)?)
}

// A call of a function of the engine.
#[cycle(eval)]
#[tactic(auto, using(crate::proofs::Nodes::fault_through))]
fn eval_call<'a, F: Functions>(
    alloc: Global,
    args: &'a [Expr],
    function: &BuiltIn,
    given: &Given<'a>,
    functions: &F,
) -> Result<Operand<'a>, EvalFault>
    requires { F.is_faithful functions.now }
    ensures { let s = setting byte_limit (⟦<F as Hosted>⟧.means functions.now) given.now in
        Evaluates (call_of s.host.order function.now (each (map meaning args.now) s)) result }
{
    if takes_first(function) {
        return eval_first(alloc, args, given, functions);
    }
    let args = eval_all(alloc, args, given, functions)?;
    Ok(Operand::made(call_built_in(alloc, functions, function, args.as_slice())?))
}

// A call of a host's function.
#[cycle(eval)]
#[tactic(auto, using(crate::proofs::Nodes::fault_through))]
fn eval_host<'a, F: Functions>(
    alloc: Global,
    args: &'a [Expr],
    name: &Text,
    given: &Given<'a>,
    functions: &F,
) -> Result<Operand<'a>, EvalFault>
    requires { F.is_faithful functions.now }
    ensures { let s = setting byte_limit (⟦<F as Hosted>⟧.means functions.now) given.now in
        Evaluates (and_then (all_of (each (map meaning args.now) s)) (λ vs. of_host (s.host.scalar name.now vs))) result }
{
    let args = eval_row(alloc, args, given, functions)?;
    Ok(Operand::made(call_host(functions, name, args.as_slice())?))
}

// The value of an expression that need not be there.
#[cycle(eval)]
#[tactic(auto, using(crate::proofs::Nodes::fault_through))]
fn eval_if_any<'a, F: Functions>(
    alloc: Global,
    expr: &'a Option<Boxed<Expr>>,
    given: &Given<'a>,
    functions: &F,
) -> Result<Option<Operand<'a>>, EvalFault>
    requires { F.is_faithful functions.now }
    ensures { let s = setting byte_limit (⟦<F as Hosted>⟧.means functions.now) given.now in
        Evaluates (if_any s (option_map meaning expr.now)) result }
{
    match expr {
        Some(expr) => {
            let operand = eval(alloc, expr.get(), given, functions)?;
            Ok(Some(operand))
        }
        None => Ok(None),
    }
}

// The value of an expression, NULL where there is none.
#[cycle(eval)]
#[tactic(auto, using(crate::proofs::Nodes::fault_through))]
fn eval_or_null<'a, F: Functions>(
    alloc: Global,
    expr: &'a Option<Boxed<Expr>>,
    given: &Given<'a>,
    functions: &F,
) -> Result<Operand<'a>, EvalFault>
    requires { F.is_faithful functions.now }
    ensures { let s = setting byte_limit (⟦<F as Hosted>⟧.means functions.now) given.now in
        Evaluates (or_null s (option_map meaning expr.now)) result }
{
    match expr {
        Some(expr) => eval(alloc, expr.get(), given, functions),
        None => Ok(Operand::made(Value::Null)),
    }
}

// What the first arm that is taken gives, if one is; what stands behind it is not evaluated.
#[cycle(eval)]
#[tactic(auto, using(crate::proofs::Nodes::fault_through))]
fn eval_arms<'a, F: Functions>(
    alloc: Global,
    arms: &'a [When],
    operand: &Option<Operand<'_>>,
    given: &Given<'a>,
    functions: &F,
) -> Result<Option<Operand<'a>>, EvalFault>
    requires { F.is_faithful functions.now }
    ensures { let s = setting byte_limit (⟦<F as Hosted>⟧.means functions.now) given.now in
        Evaluates (taken s operand.now (map arm_of arms.now)) result }
{
    for arm in arms {
        let when = eval(alloc, &arm.when, given, functions)?;
        if is_taken(alloc, functions, operand, &arm.meeting, when.get())? {
            let value = eval(alloc, &arm.then, given, functions)?;
            return Ok(Some(value));
        }
    }
    Ok(None)
}

// What an aggregate gives of its arguments over each combination of the group.
#[cycle(eval)]
#[tactic(auto, using(crate::proofs::Nodes::fault_through))]
fn eval_aggregate<'a, F: Functions>(
    alloc: Global,
    args: &'a [Expr],
    kind: &Aggregate,
    given: &Given<'a>,
    functions: &F,
) -> Result<Operand<'a>, EvalFault>
    requires { F.is_faithful functions.now }
    ensures { let s = setting byte_limit (⟦<F as Hosted>⟧.means functions.now) given.now in
        Evaluates (and_then (argument_rows (map meaning args.now) s) (aggregate_of s.host.order (λ name. s.host.aggregate name (length args.now)) kind.now)) result }
{
    let mut rows = Vec::new(alloc);
    for row in given.group {
        let over = Given {
            row: row.as_slice(),
            ..*given
        };
        let values = eval_row(alloc, args, &over, functions)?;
        rows.push(values)?;
    }
    let value = aggregate(alloc, functions, kind, args.len(), Items::new(rows))?;
    Ok(Operand::made(value))
}
