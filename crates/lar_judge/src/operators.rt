//! Operators before an operand and between two.
ghost use Rattle.std.specs.Prelude.{◌≡◌, ◌<◌, List, ℕ, length, option_map, IfOk, OnOk};
ghost use Rattle.type_table.specs.declared.row.Row.{Row};
ghost use Rattle.type_table.specs.TypeOf as type;
ghost use Rattle.type_table.specs.Rows.{type_at, Keeps, Stands};
ghost use Rattle.lar_typed.specs.Exprs as typed;
ghost use Rattle.lar_rules.specs.Fault.{least};
ghost use Rattle.lar_rules.specs.Judged.{Env};
ghost use Rattle.lar_rules.specs.Written.{Site};
ghost use Rattle.lar_rules.specs.Exprs as rules;
ghost use Rattle.lar_typed.specs.Lawful.{is_scalar};
ghost use Rattle.lar_judge.specs.Here.{IsHere};
ghost use Rattle.lar_judge.specs.Rule.{IsRule};
ghost use Rattle.lar_judge.specs.Known.{known, typed_in, type_if, TypedWithin, IfWithin, Knows};

use crate::fit::{fitting, fitting_if, label, misfit, misfit_if};
use crate::{Here, Judged};
use lar_source::Span;
use lar_told::First;
use lar_tree::{Binary, Unary};
use lar_typed::{BinaryOp, TypedExpr, UnaryOp};
use std::alloc::{AllocError, Global};
use type_table::{Row, Types};

/// The number of `i64`.
pub fn int_type(types: &mut Types) -> Result<usize, AllocError>
    ensures kept { Keeps types.old types.new }
    ensures number { IfOk result (λ n. Stands types.new n type.int) }
{
    types.intern(Row::Int)
}

/// The number of `bool`.
pub fn bool_type(types: &mut Types) -> Result<usize, AllocError>
    ensures kept { Keeps types.old types.new }
    ensures number { IfOk result (λ n. Stands types.new n type.bool) }
{
    types.intern(Row::Bool)
}

fn unary_op(op: Unary) -> UnaryOp
    ensures { result ≡ rules.typed_unary_op op }
{
    match op {
        Unary::Minus => UnaryOp::Minus,
        Unary::Not => UnaryOp::Not,
    }
}

fn unary_type(types: &mut Types, op: Unary) -> Result<usize, AllocError>
    ensures kept { Keeps types.old types.new }
    ensures number { IfOk result (λ n. Stands types.new n (rules.unary_type op)) }
{
    match op {
        Unary::Minus => int_type(types),
        Unary::Not => bool_type(types),
    }
}

fn unary_typed(
    alloc: Global,
    of: usize,
    op: UnaryOp,
    e: Option<TypedExpr>,
) -> Result<Option<TypedExpr>, AllocError>
    ensures within { IfOk result (λ r. (rows : List Row) → of < length rows → TypedWithin rows e → TypedWithin rows r) }
    ensures is { IfOk result (λ r. (rows : List Row) → typed_in rows r ≡ option_map (typed.unary (type_at rows of) op) (typed_in rows e)) }
{
    match e {
        None => Ok(None),
        Some(e) => Ok(Some(TypedExpr::unary(alloc, of, op, e)?)),
    }
}

/// `-` and `!`.
#[tactic(auto, using(crate::proofs::Kept::within_kept))]
pub fn unary(
    alloc: Global,
    types: &mut Types,
    first: &mut First,
    here: &Here<'_>,
    op: Unary,
    at: Span,
    e: Judged,
) -> Result<Judged, AllocError>
    requires { TypedWithin types.old e.typed }
    ensures kept { Keeps types.old types.new }
    ensures known { IfOk result (λ r. (env : Env) → Knows types.new r (rules.judged_unary env op at (known types.old e))) }
    ensures told { (env : Env) → IsHere here.now env.site → OnOk result (first.new ≡ least first.old (rules.judged_unary env op at (known types.old e)).faults) }
{
    let of = unary_type(types, op)?;
    misfit(alloc, types, first, here, of, &e)?;
    let typed = unary_typed(alloc, of, unary_op(op), fitting(types, of, e.typed))?;
    Ok(Judged { at, typed })
}

fn binary_op(op: Binary) -> BinaryOp
    ensures { result ≡ rules.typed_binary_op op }
{
    match op {
        Binary::Or => BinaryOp::Or,
        Binary::And => BinaryOp::And,
        Binary::Equal => BinaryOp::Equal,
        Binary::NotEqual => BinaryOp::NotEqual,
        Binary::Less => BinaryOp::Less,
        Binary::AtMost => BinaryOp::AtMost,
        Binary::Greater => BinaryOp::Greater,
        Binary::AtLeast => BinaryOp::AtLeast,
        Binary::Plus => BinaryOp::Plus,
        Binary::Minus => BinaryOp::Minus,
        Binary::Star => BinaryOp::Star,
        Binary::Slash => BinaryOp::Slash,
        Binary::Percent => BinaryOp::Percent,
    }
}

fn result_type(types: &mut Types, op: Binary) -> Result<usize, AllocError>
    ensures kept { Keeps types.old types.new }
    ensures number { IfOk result (λ n. Stands types.new n (rules.result_type op)) }
{
    match op {
        Binary::Plus | Binary::Minus | Binary::Star | Binary::Slash | Binary::Percent => {
            int_type(types)
        }
        _ => bool_type(types),
    }
}

fn operand_type(types: &mut Types, op: Binary) -> Result<Option<usize>, AllocError>
    ensures kept { Keeps types.old types.new }
    ensures within { IfOk result (λ o. IfWithin types.new o) }
    ensures is { IfOk result (λ o. type_if types.new o ≡ rules.operand_type op) }
{
    match op {
        Binary::Or | Binary::And => Ok(Some(bool_type(types)?)),
        Binary::Equal | Binary::NotEqual => Ok(None),
        _ => Ok(Some(int_type(types)?)),
    }
}

/// What an operator between two operands asks and gives; its types are numbers of rows.
#[derive(Clone, Copy)]
struct Rule {
    op: BinaryOp,
    of: usize,
    /// The type of both operands; none where two of `i64` or of `bool` are compared.
    wanted: Option<usize>,
    int: usize,
}

#[tactic(auto, using(crate::proofs::Operands::rule_is))]
fn rule_of(types: &mut Types, op: Binary) -> Result<Rule, AllocError>
    ensures kept { Keeps types.old types.new }
    ensures rule { IfOk result (λ r. IsRule types.new op r) }
{
    let of = result_type(types, op)?;
    let wanted = operand_type(types, op)?;
    let int = int_type(types)?;
    Ok(Rule {
        op: binary_op(op),
        of,
        wanted,
        int,
    })
}

fn binary_typed(
    alloc: Global,
    of: usize,
    op: BinaryOp,
    a: Option<TypedExpr>,
    b: Option<TypedExpr>,
) -> Result<Option<TypedExpr>, AllocError>
    ensures within { IfOk result (λ r. (rows : List Row) → of < length rows → TypedWithin rows a → TypedWithin rows b → TypedWithin rows r) }
    ensures is { IfOk result (λ r. (rows : List Row) → typed_in rows r ≡ rules.both_typed (type_at rows of) op (typed_in rows a) (typed_in rows b)) }
{
    match (a, b) {
        (Some(a), Some(b)) => Ok(Some(TypedExpr::binary(alloc, of, op, a, b)?)),
        _ => Ok(None),
    }
}

fn is_scalar(types: &Types, number: usize) -> bool
    requires { number < length types.now }
    ensures { result ≡ is_scalar (type_at types.now number) }
{
    match types.row(number) {
        Row::Int => true,
        Row::Bool => true,
        Row::Param(_) => false,
        Row::Number(_) => false,
        Row::End => false,
        Row::More(_, _) => false,
        Row::Tuple(_) => false,
        Row::Struct(_, _) => false,
    }
}

/// The type of an expression, where it is `i64` or `bool`.
#[tactic(auto, using(crate::proofs::Labels::label_within, crate::proofs::Labels::same_label))]
fn scalar(types: &Types, e: &Option<TypedExpr>) -> Option<usize>
    requires { TypedWithin types.now e.now }
    ensures within { IfWithin types.now result }
    ensures is { type_if types.now result ≡ rules.scalar_of (typed_in types.now e.now) }
{
    match e {
        None => None,
        Some(x) => {
            if is_scalar(types, label(x)) {
                return Some(label(x));
            }
            None
        }
    }
}

/// Notes where the left operand of a comparison is neither `i64` nor `bool`.
fn not_scalar(
    alloc: Global,
    types: &Types,
    first: &mut First,
    here: &Here<'_>,
    int: usize,
    e: &Judged,
) -> Result<(), AllocError>
    requires int { Stands types.now int type.int }
    requires within { TypedWithin types.now e.now.typed }
    ensures { (s : Site) → IsHere here.now s → OnOk result (first.new ≡ least first.old (rules.not_scalar_of s e.now.at (typed_in types.now e.now.typed))) }
{
    match &e.typed {
        None => Ok(()),
        Some(x) => {
            let of = label(x);
            if is_scalar(types, of) {
                return Ok(());
            }
            here.note_other_type(alloc, types, first, e.at, int, of)
        }
    }
}

/// An operator whose operands have one type.
fn same_operands(
    alloc: Global,
    types: &Types,
    first: &mut First,
    here: &Here<'_>,
    rule: Rule,
    wanted: usize,
    a: Judged,
    b: Judged,
) -> Result<Judged, AllocError>
    requires of { rule.of < length types.now }
    requires wanted { wanted < length types.now }
    requires a { TypedWithin types.now a.typed }
    requires b { TypedWithin types.now b.typed }
    ensures known { IfOk result (λ r. (env : Env) → Knows types.now r (rules.judged_operands env (type_at types.now rule.of) rule.op (known types.now a) (known types.now b) (Some (type_at types.now wanted)))) }
    ensures told { (env : Env) → IsHere here.now env.site → OnOk result (first.new ≡ least first.old (rules.judged_operands env (type_at types.now rule.of) rule.op (known types.now a) (known types.now b) (Some (type_at types.now wanted))).faults) }
{
    misfit(alloc, types, first, here, wanted, &a)?;
    misfit(alloc, types, first, here, wanted, &b)?;
    let at = a.at;
    let left = fitting(types, wanted, a.typed);
    let right = fitting(types, wanted, b.typed);
    let typed = binary_typed(alloc, rule.of, rule.op, left, right)?;
    Ok(Judged { at, typed })
}

/// An operator that compares two of `i64` or two of `bool`.
fn compared(
    alloc: Global,
    types: &Types,
    first: &mut First,
    here: &Here<'_>,
    rule: Rule,
    a: Judged,
    b: Judged,
) -> Result<Judged, AllocError>
    requires of { rule.of < length types.now }
    requires int { Stands types.now rule.int type.int }
    requires a { TypedWithin types.now a.typed }
    requires b { TypedWithin types.now b.typed }
    ensures known { IfOk result (λ r. (env : Env) → Knows types.now r (rules.judged_operands env (type_at types.now rule.of) rule.op (known types.now a) (known types.now b) None)) }
    ensures told { (env : Env) → IsHere here.now env.site → OnOk result (first.new ≡ least first.old (rules.judged_operands env (type_at types.now rule.of) rule.op (known types.now a) (known types.now b) None).faults) }
{
    not_scalar(alloc, types, first, here, rule.int, &a)?;
    let wanted = scalar(types, &a.typed);
    misfit_if(alloc, types, first, here, wanted, &b)?;
    let at = a.at;
    let left = fitting_if(types, wanted, a.typed);
    let right = fitting_if(types, wanted, b.typed);
    let typed = binary_typed(alloc, rule.of, rule.op, left, right)?;
    Ok(Judged { at, typed })
}

/// An operator between two operands.
pub fn binary(
    alloc: Global,
    types: &mut Types,
    first: &mut First,
    here: &Here<'_>,
    op: Binary,
    a: Judged,
    b: Judged,
) -> Result<Judged, AllocError>
    requires a { TypedWithin types.old a.typed }
    requires b { TypedWithin types.old b.typed }
    ensures kept { Keeps types.old types.new }
    ensures known { IfOk result (λ r. (env : Env) → Knows types.new r (rules.judged_binary env op (known types.old a) (known types.old b))) }
    ensures told { (env : Env) → IsHere here.now env.site → OnOk result (first.new ≡ least first.old (rules.judged_binary env op (known types.old a) (known types.old b)).faults) }
{
    let rule = rule_of(types, op)?;
    match rule.wanted {
        Some(wanted) => same_operands(alloc, types, first, here, rule, wanted, a, b),
        None => compared(alloc, types, first, here, rule, a, b),
    }
}
