//! The arguments that a call comes to, unless one is too large.
ghost use Rattle.std.specs.Prelude.{◌≡◌, ◌<◌, ◌≤◌, length, OnOk, IfOk};
ghost use Rattle.type_table.specs.Rows.{type_at, IsTable, Keeps};
ghost use Rattle.type_table.specs.Substitution.{subst};
ghost use Rattle.type_sizes.specs.Sizes.{AreSizes};
ghost use Rattle.lar_typed.specs.TreeView.{contents, plain};
ghost use Rattle.mono_graph.specs.Instances.{has_large};
ghost use Rattle.mono_collect.specs.Arguments.{IsList};

use lar_typed::TypedTree;
use std::alloc::AllocError;
use type_sizes::{Size, is_too_large, sizes};
use type_table::{Row, Types};

/// Whether one of a list of arguments is too large.
fn has_large(types: &Types, sizes: &[Size], list: usize) -> bool
    requires within { list < length types.now }
    requires count { length sizes.now ≡ length types.now }
    requires known { AreSizes types.now sizes.now }
    ensures { result ≡ has_large (type_at types.now list) }
{
    match types.row(list) {
        Row::More(first, others) => {
            if is_too_large(sizes[first]) {
                return true;
            }
            has_large(types, sizes, others)
        }
        _ => false,
    }
}

/// The list of a pattern's arguments, where the caller's arguments stand for its generics; nothing where one of it is too large.
/// `known` has the sizes of the rows so far.
pub(crate) fn argument_list(
    tree: &mut TypedTree,
    known: &mut Vec<Size>,
    pattern: usize,
    arguments: usize,
) -> Result<Option<usize>, AllocError>
    requires pattern { pattern < length tree.old.rows }
    requires arguments { arguments < length tree.old.rows }
    requires count { length known.old.items ≤ length tree.old.rows }
    requires known { AreSizes tree.old.rows known.old.items }
    ensures kept { Keeps tree.old.rows tree.new.rows }
    ensures rest { tree.new ≡ contents tree.new.rows tree.old.structs tree.old.consts tree.old.functions }
    ensures program { plain tree.new ≡ plain tree.old }
    ensures count { OnOk result (length known.new.items ≤ length tree.new.rows) }
    ensures known { OnOk result (AreSizes tree.new.rows known.new.items) }
    ensures table { OnOk result (IsTable tree.new.rows) }
    ensures list { IfOk result (IsList tree.new.rows (subst (type_at tree.old.rows arguments) (type_at tree.old.rows pattern))) }
{
    let list = tree.substitute(pattern, arguments)?;
    let types = tree.types();
    sizes(types, known)?;
    let all = known.len() == types.len();
    prove!(all);
    if has_large(types, known, list) {
        return Ok(None);
    }
    Ok(Some(list))
}
