//! What can be assigned to.
ghost use Rattle.std.specs.Prelude.{◌≡◌, List};
ghost use Rattle.type_table.specs.declared.row.Row.{Row};
ghost use Rattle.lar_tree.specs.ExprView.{expr_view};
ghost use Rattle.lar_rules.specs.Exprs.{value_named};
ghost use Rattle.lar_rules.specs.Judged.{Env};
ghost use Rattle.lar_rules.specs.Bodies as rules;
ghost use Rattle.lar_judge.specs.Locals.{locals_in};

use lar_judge::Locals;
use lar_tree::{Expr, Path};

/// Whether a path means a local.
fn is_local(locals: &Locals<'_>, path: &Path) -> bool
    ensures { (rows : List Row) (env : Env) → env.locals ≡ locals_in rows locals.now.locals.items → result ≡ rules.is_local (value_named env path.now) }
{
    if path.len() == 1 {
        return locals.find(&path.first.text).is_some();
    }
    false
}

/// Whether an expression is a local followed by fields.
pub fn is_place(e: &Expr, locals: &Locals<'_>) -> bool
    ensures { (rows : List Row) (env : Env) → env.locals ≡ locals_in rows locals.now.locals.items → result ≡ rules.is_place env (expr_view e.now) }
{
    match e {
        Expr::Path(path) => is_local(locals, path),
        Expr::Field(inner, _, _) => is_place(inner.get(), locals),
        Expr::Number(_, _) => false,
        Expr::True(_) => false,
        Expr::False(_) => false,
        Expr::Paren(_, _, _) => false,
        Expr::New(_) => false,
        Expr::Call(_) => false,
        Expr::Unary(_, _, _) => false,
        Expr::Binary(_, _, _, _) => false,
    }
}
