//! What holds of the rules: each law is the contract of a function that does nothing, which a caller calls to have the law.
ghost use Rattle.std.specs.Prelude.{◌≡◌, ◌++◌, List, Option, length};
ghost use Rattle.lar_source.specs.declared.file.Span.{Span};
ghost use Rattle.lar_tree.specs.declared.name.Path.{Path};
ghost use Rattle.lar_tree.specs.declared.expr.Selector.{Selector};
ghost use Rattle.lar_tree.specs.declared.expr.Unary.{Unary};
ghost use Rattle.lar_tree.specs.declared.expr.Binary.{Binary};
ghost use Rattle.lar_rules.specs.Declared.{Struct, Function};
ghost use Rattle.lar_rules.specs.Written.{Given};
ghost use Rattle.lar_rules.specs.Judged.{Env, Judged, all_faults};
ghost use Rattle.lar_rules.specs.Exprs.{judged_unary, judged_binary, judged_paren, judged_field, judged_call, judged_new, Init, init_values};
ghost use Rattle.lar_judge.specs.Known.{silent};
ghost use Rattle.lar_judge.specs.Lists.{silents};
ghost use Rattle.lar_judge.specs.Calls.{call_head, call_rest};
ghost use Rattle.lar_judge.specs.Making.{new_head, new_rest, silent_inits};

/// The faults of the parts stand before those of the rule, in the order in which a walk notes them.
pub fn noted_in_order()
    ensures unary { (env : Env) (op : Unary) (at : Span) (e : Judged) → (judged_unary env op at e).faults ≡ e.faults ++ (judged_unary env op at (silent e)).faults }
    ensures binary { (env : Env) (op : Binary) (a b : Judged) → (judged_binary env op a b).faults ≡ a.faults ++ (b.faults ++ (judged_binary env op (silent a) (silent b)).faults) }
    ensures bracket { (env : Env) (at : Span) (js : List Judged) → (judged_paren env at js).faults ≡ all_faults js ++ (judged_paren env at (silents js)).faults }
    ensures field { (env : Env) (e : Judged) (s : Selector) → (judged_field env e s).faults ≡ e.faults ++ (judged_field env (silent e) s).faults }
    ensures call { (env : Env) (p : Path) (gs : List Given) (js : List Judged) (f : Option Function) → (judged_call env p gs js f).faults ≡ call_head env.site p gs (length js) f ++ (all_faults js ++ call_rest env p gs (silents js) f) }
    ensures new { (env : Env) (at : Span) (p : Path) (gs : List Given) (is : List Init) (x : Option Struct) → (judged_new env at p gs is x).faults ≡ new_head env.site p gs x ++ (all_faults (init_values is) ++ new_rest env at p gs (silent_inits is) x) }
{}

/// What is known of the whole does not depend on the faults of the parts.
pub fn known_without_faults()
    ensures unary { (env : Env) (op : Unary) (at : Span) (e : Judged) → silent (judged_unary env op at (silent e)) ≡ silent (judged_unary env op at e) }
    ensures binary { (env : Env) (op : Binary) (a b : Judged) → silent (judged_binary env op (silent a) (silent b)) ≡ silent (judged_binary env op a b) }
    ensures bracket { (env : Env) (at : Span) (js : List Judged) → silent (judged_paren env at (silents js)) ≡ silent (judged_paren env at js) }
    ensures field { (env : Env) (e : Judged) (s : Selector) → silent (judged_field env (silent e) s) ≡ silent (judged_field env e s) }
    ensures call { (env : Env) (p : Path) (gs : List Given) (js : List Judged) (f : Option Function) → silent (judged_call env p gs (silents js) f) ≡ silent (judged_call env p gs js f) }
    ensures new { (env : Env) (at : Span) (p : Path) (gs : List Given) (is : List Init) (x : Option Struct) → silent (judged_new env at p gs (silent_inits is) x) ≡ silent (judged_new env at p gs is x) }
{}
