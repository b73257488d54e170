//! The body of a function.
ghost use Rattle.std.specs.Prelude.{◌≡◌, ◌++◌, List, map, IfOk, OnOk};
ghost use Rattle.type_table.specs.Rows.{Keeps};
ghost use Rattle.lar_rules.specs.Declared.{Declared, Function};
ghost use Rattle.lar_rules.specs.Fault.{least};
ghost use Rattle.lar_rules.specs.Functions.{body_done, ending_faults};
ghost use Rattle.lar_judge.specs.Here.{IsHere};
ghost use Rattle.lar_written.specs.Standing.{Inside, AllInside};
ghost use Rattle.lar_bodies.specs.Body.{IsFunction, BodyIs};

use crate::ending::note_ending;
use crate::entry::entry_state;
use crate::walk::block_walked;
use lar_judge::{Here, Site};
use lar_stmts::{Context, State};
use lar_told::First;
use lar_tree::Fn;
use lar_typed::TypedStmt;
use lar_written::Member;
use sqlite_items::Items;
use std::alloc::{AllocError, Global};
use type_table::Types;

/// What is known of a body.
#[derive(Drop)]
pub struct TypedBody {
    /// Its statements, where there is no fault in them.
    pub stmts: Option<Items<TypedStmt>>,
    /// The types of all its locals by number, the parameters first, where they are known.
    pub locals: Vec<Option<usize>>,
}

/// The body of a function. `here` and `site` are where it is written, `params` and `outcome` what is known of its parameters
/// and of its result. Each fault of the body is noted, and that it may end without a value.
pub fn body<'a, S: Site>(
    alloc: Global,
    types: &mut Types,
    first: &mut First,
    here: &Here<'_>,
    site: &S,
    params: &[Member<'a>],
    outcome: Option<usize>,
    it: &'a Fn,
) -> Result<TypedBody, AllocError>
    requires here { IsHere here.now (S.site site.now) }
    requires stands { S.stands site.now types.old }
    requires params { AllInside types.old (map (λ p. p.of) params.now) }
    requires outcome { Inside types.old outcome }
    ensures kept { Keeps types.old types.new }
    ensures known { IfOk result (λ r. (all : List Declared) (x : Function) → IsFunction types.old (S.site site.now) params.now outcome it.now all x → BodyIs types.new r (body_done all x)) }
    ensures told { (all : List Declared) (x : Function) → IsFunction types.old (S.site site.now) params.now outcome it.now all x → OnOk result (first.new ≡ least first.old ((body_done all x).faults ++ ending_faults all x)) }
{
    let mut state = entry_state(alloc, params)?;
    let context = Context {
        here: *here,
        site,
        outcome,
    };
    let stmts = block_walked(&it.body, alloc, types, first, &context, &mut state)?;
    note_ending(alloc, types, first, here.file, outcome, &it.name, &it.body)?;
    let State {
        locals: _,
        types: locals,
    } = state;
    Ok(TypedBody { stmts, locals })
}
