//! The locals at the entry of a body.
ghost use Rattle.std.specs.Prelude.{◌≡◌, ◌++◌, ℕ, List, map, IfOk, OnOk};
ghost use Rattle.type_table.specs.declared.row.Row.{Row};
ghost use Rattle.lar_rules.specs.Functions.{numbered_locals};
ghost use Rattle.lar_judge.specs.Locals.{locals_in, LocalsWithin};
ghost use Rattle.lar_written.specs.Members.{member_view};
ghost use Rattle.lar_written.specs.Standing.{AllInside};
ghost use Rattle.lar_stmts.specs.States.{state_in, StateWithin};

use lar_judge::{Local, Locals};
use lar_stmts::State;
use lar_written::Member;
use std::alloc::{AllocError, Global};

/// The parameters as locals. The last one is declared first, since of two of one name the first is meant.
fn param_locals<'a>(alloc: Global, params: &[Member<'a>]) -> Result<Locals<'a>, AllocError>
    ensures within { IfOk result (λ r. (rows : List Row) → AllInside rows (map (λ p. p.of) params.now) → LocalsWithin rows r.locals.items) }
    ensures are { IfOk result (λ r. (rows : List Row) → locals_in rows r.locals.items ≡ numbered_locals 0 (map (member_view rows) params.now)) }
{
    let mut locals = Locals::new(alloc);
    let mut number = params.len();
    while number > 0 {
        number -= 1;
        let param = params[number];
        locals.declare(Local {
            name: &param.name.text,
            number,
            of: param.of,
        })?;
    }
    Ok(locals)
}

fn types_of(alloc: Global, params: &[Member<'_>]) -> Result<Vec<Option<usize>>, AllocError>
    ensures { IfOk result (λ r. r.items ≡ map (λ p. p.of) params.now) }
{
    params.iter().map(|param| param.of).collect(alloc)
}

/// The parameters as the first locals.
pub(crate) fn entry_state<'a>(alloc: Global, params: &[Member<'a>]) -> Result<State<'a>, AllocError>
    ensures within { IfOk result (λ r. (rows : List Row) → AllInside rows (map (λ p. p.of) params.now) → StateWithin rows r) }
    ensures is { IfOk result (λ r. (rows : List Row) → state_in rows r ≡ record { locals = numbered_locals 0 (map (member_view rows) params.now); types = map (λ m. m.1) (map (member_view rows) params.now) }) }
{
    let locals = param_locals(alloc, params)?;
    let types = types_of(alloc, params)?;
    Ok(State { locals, types })
}
