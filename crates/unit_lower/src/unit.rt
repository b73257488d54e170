//! Units: each function in order, up to the first one with a fault.

ghost use Rattle.std.specs.Prelude.{◌≡◌, Err, IfOk, OnOk, map, sum, true, false};
ghost use Rattle.lar_bytes.specs.Answers.{Answers};
ghost use Rattle.lease_table.specs.Lease.{IsSameBusy};
ghost use Rattle.unit_input.specs.InputView as input;
ghost use Rattle.unit_input.specs.Rules.{IsFn};
ghost use Rattle.unit_input.specs.Widths as widths;
ghost use Rattle.unit_ir.specs.StmtView.{stmts_view};
ghost use Rattle.unit_ir.specs.Units.{fn_view, unit_view};
ghost use Rattle.unit_lower.specs.LoweredUnit as plain;
ghost use Rattle.unit_lower.specs.ScopeView.{signature_view, scope_in};
ghost use Rattle.unit_lower.specs.UnitResult.{or_failure, functions_or};
ghost use Rattle.unit_lower.specs.declared.stop.Stop.TheVariants.{TooWide};

use crate::assertions::{Failure, first_failure};
use crate::scope::{Scope, Signature, raised};
use crate::stmts::lowered_stmts;
use crate::stop::Stop;
use lar_bytes::{OrMemory, Text, Texts};
use lease_table::Busy;
use sqlite_items::Items;
use std::alloc::{AllocError, Global};
use unit_input::{ExternalFn, UnitFn, UnitInput};
use unit_ir::{IrFn, IrStmt, IrUnit, UnitFault};

/// The diagnostic's number of a function that is too wide.
const TOO_WIDE: u8 = 32;

// The sum of widths, at most 256.
#[tactic(auto, using(crate::proofs::Firsts::sum_more, crate::proofs::Firsts::sum_all))]
fn cut_sum(list: &[u16]) -> u16
    ensures { result ≡ widths.cut (sum list.now) }
{
    let mut total = 0u16;
    for width in list {
        total = total.saturating_add(*width).min(256);
    }
    total
}

// How many words the parameters of a function have, at most 256.
fn params_width(f: &UnitFn) -> u16
    ensures { result ≡ widths.cut (widths.params_width (input.fn_view f.now)) }
{
    let locals = f.locals.as_slice();
    let count = locals.len().min(f.params as usize);
    cut_sum(&locals[..count])
}

// The signatures of what a unit calls, by the numbers of its calls.
#[tactic(auto, using(crate::proofs::Functions::mapped_more, crate::proofs::Functions::mapped_all, crate::proofs::Functions::all_callees))]
fn callees_of(alloc: Global, unit: &UnitInput) -> Result<Vec<Signature>, AllocError>
    ensures { IfOk result (λ r. map signature_view r.items ≡ widths.callees_of (input.input_view unit.now)) }
{
    let functions = unit.functions();
    let externals = unit.externals();
    let mut callees = Vec::with_capacity(alloc, functions.len().saturating_add(externals.len()))?;
    for f in functions {
        callees.push(Signature {
            params: params_width(f),
            result: f.result,
        })?;
    }
    for external in externals {
        callees.push(Signature {
            params: external.params,
            result: external.result,
        })?;
    }
    Ok(callees)
}

// The body of a function and how many slots it takes, or that it is too wide.
#[tactic(auto, using(crate::proofs::Functions::locals_over, crate::proofs::Functions::body_narrow))]
fn lowered_body(
    alloc: Global,
    f: &UnitFn,
    callees: &[Signature],
) -> Result<(Items<IrStmt>, u8), Stop>
    requires { IsFn (scope_in callees.now (input.fn_view f.now)) (input.fn_view f.now) }
    ensures body { IfOk result (λ r. stmts_view r.0 ≡ (plain.lowered_body (scope_in callees.now (input.fn_view f.now)) (input.fn_view f.now)).made) }
    ensures slots { IfOk result (λ r. r.1 ≡ (plain.lowered_body (scope_in callees.now (input.fn_view f.now)) (input.fn_view f.now)).next) }
    ensures narrow { OnOk result (plain.is_too_wide (scope_in callees.now (input.fn_view f.now)) (input.fn_view f.now) ≡ false) }
    ensures wide { result ≡ Err TooWide → plain.is_too_wide (scope_in callees.now (input.fn_view f.now)) (input.fn_view f.now) ≡ true }
{
    raised(0, f.result)?;
    let scope = Scope::new(alloc, f.locals.as_slice(), f.result, callees)?;
    let mut next = scope.slots();
    let body = lowered_stmts(f.body.as_slice(), alloc, &scope, &mut next)?;
    // a count of a byte
    let slots = raised(next, 0)?;
    Ok((body, slots))
}

// A function, or its fault.
#[tactic(auto, using(crate::proofs::Functions::failure_first, crate::proofs::Functions::failure_wide, crate::proofs::Functions::no_failure, crate::proofs::Functions::narrow_result, crate::proofs::Functions::narrow_params))]
fn lowered_fn(alloc: Global, f: &UnitFn, callees: &[Signature]) -> Result<IrFn, OrMemory<Failure>>
    requires { IsFn (scope_in callees.now (input.fn_view f.now)) (input.fn_view f.now) }
    ensures { Answers fn_view result (or_failure (plain.lowered_in (scope_in callees.now (input.fn_view f.now)) (input.fn_view f.now)) (plain.failure_of (scope_in callees.now (input.fn_view f.now)) (input.fn_view f.now))) }
{
    let mut next = 0;
    match first_failure(f.body.as_slice(), &mut next) {
        Some(failure) => return Err(OrMemory::Refused(failure)),
        None => {}
    }
    let (body, slots) = match lowered_body(alloc, f, callees) {
        Ok(lowered) => lowered,
        Err(Stop::TooWide) => return Err(OrMemory::Refused(Failure {
            code: TOO_WIDE,
            number: 0,
        })),
        Err(Stop::Memory) => return Err(OrMemory::Memory),
    };
    Ok(IrFn {
        symbol: Text::copied(alloc, f.symbol.as_str())?,
        external: f.external,
        params: params_width(f) as u8,
        result: f.result as u8,
        slots,
        body,
    })
}

// The fault of the function with this number.
fn fault_of(failure: Failure, number: u32) -> UnitFault
    ensures { result ≡ record { code = failure.code; function = number; assertion = failure.number } }
{
    UnitFault {
        code: failure.code,
        function: number,
        assertion: failure.number,
    }
}

// The functions of a unit, or the fault of the first one that has one.
#[tactic(auto, using(crate::proofs::Functions::mapped_more, crate::proofs::Functions::all_lowered, crate::proofs::Functions::one_faulty, crate::proofs::Functions::each_is, crate::proofs::Functions::is_in_scope, crate::proofs::Functions::same_scope, crate::proofs::Functions::no_fault_yet))]
fn lowered_fns(
    alloc: Global,
    unit: &UnitInput,
    callees: &[Signature],
) -> Result<Items<IrFn>, OrMemory<UnitFault>>
    requires { map signature_view callees.now ≡ widths.callees_of (input.input_view unit.now) }
    ensures { Answers (λ fs. map fn_view fs) result (functions_or (input.input_view unit.now)) }
{
    let functions = unit.functions();
    let mut made = Items::new(alloc);
    let mut number = 0u32;
    for f in functions {
        match lowered_fn(alloc, f, callees) {
            Ok(function) => made.push(function)?,
            Err(OrMemory::Refused(failure)) => return Err(OrMemory::Refused(fault_of(
                failure, number,
            ))),
            Err(OrMemory::Memory) => return Err(OrMemory::Memory),
        }
        number += 1;
    }
    Ok(made)
}

// The symbols of what a unit calls and other units have.
fn symbols_of(alloc: Global, externals: &[ExternalFn]) -> Result<Texts, AllocError>
    ensures { IfOk result (λ r. r ≡ map (λ e. e.symbol) externals.now) }
{
    let mut symbols = Vec::with_capacity(alloc, externals.len())?;
    for external in externals {
        symbols.push(Text::copied(alloc, external.symbol.as_str())?)?;
    }
    Ok(Texts::from_vec(symbols))
}

/// The intermediate form of a unit, or the fault of its first function that has one: its first assertion that traps (31) or is
/// false (30), or else that it is too wide (32). It is done under a busy lease, which it leaves as it was.
#[tactic(auto, using(crate::proofs::Functions::lowered_faulty))]
pub fn generate(
    alloc: Global,
    busy: &mut Busy,
    unit: &UnitInput,
) -> Result<IrUnit, OrMemory<UnitFault>>
    ensures unit { Answers unit_view result (plain.lowered (input.input_view unit.now)) }
    ensures busy { IsSameBusy busy.old busy.new }
{
    let callees = callees_of(alloc, unit)?;
    let functions = lowered_fns(alloc, unit, callees.as_slice())?;
    let externals = symbols_of(alloc, unit.externals())?;
    Ok(IrUnit::new(functions, externals))
}
