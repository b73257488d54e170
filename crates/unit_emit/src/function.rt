//! The code of a function, or that it is too long.

ghost use Rattle.std.specs.Prelude.{◌≡◌, ◌<◌, ◌≤◌, length};
ghost use Rattle.unit_ir.specs.StmtView.{stmts_view};
ghost use Rattle.unit_emit.specs.Code.{Coded, function_code, plain, last_of};

use crate::buffer::put;
use crate::stmts::emit_stmts;
use object_format::{MAX_CODE, Opcode};
use std::alloc::{AllocError, Global};
use unit_ir::IrStmt;

/// Why a function has no code.
#[derive(Clone, Copy, Debug, PartialEq, Eq)]
pub(crate) enum Refused {
    TooLong,
    Memory,
}

impl From<AllocError> for Refused {
    ghost use Rattle.std.specs.Prelude.{◌≡◌};
    ghost use Rattle.unit_emit.specs.declared.function.Refused.TheVariants.{Memory};

    ghost from_gives = { λ _ e. e ≡ Memory };

    fn from(_: AllocError) -> Self {
        Refused::Memory
    }
}

fn last_opcode(results: u8) -> Opcode
    ensures { plain result ≡ last_of results }
{
    match results {
        0 => Opcode::Return,
        _ => Opcode::Trap,
    }
}

/// The whole code of a function with this body and so many words of result.
pub(crate) fn code_of(alloc: Global, body: &[IrStmt], results: u8) -> Result<Vec<u8>, Refused>
    ensures { Coded (function_code (stmts_view body.now) results) result }
{
    let mut code = Vec::new(alloc);
    emit_stmts(&mut code, body)?;
    put(&mut code, last_opcode(results))?;
    if code.len() > MAX_CODE {
        return Err(Refused::TooLong);
    }
    Ok(code)
}
