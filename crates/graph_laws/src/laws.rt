//! What holds of graphs: each law is the contract of a function that does nothing, which a caller calls to have the law.
ghost use Rattle.std.specs.Prelude.{◌≡◌, ℕ, ◌<◌, ◌≤◌, false, List, length, map};
ghost use Rattle.std.specs.List.{AllByRecursion, flat_map, IsDistinct};
ghost use Rattle.reach.specs.Reach.{IsFound};
ghost use Rattle.type_table.specs.TypeOf.{TypeOf};
ghost use Rattle.type_table.specs.Rows.{IsTable};
ghost use Rattle.lar_typed.specs.Calls.{CallOf};
ghost use Rattle.lar_typed.specs.IsTyped.{IsTyped};
ghost use Rattle.lar_typed.specs.Trees.{PlainTree};
ghost use Rattle.lar_typed.specs.TreeView.{Contents, IsTypedTree, plain};
ghost use Rattle.mono_items.specs.declared.items.Instance.{Instance};
ghost use Rattle.mono_items.specs.declared.items.MonoGraph.{MonoGraph};
ghost use Rattle.mono_items.specs.Symbols.{symbol_of};
ghost use Rattle.mono_items.specs.Units.{IsGraph};
ghost use Rattle.mono_graph.specs.declared.refused.RefusedCall.{RefusedCall};
ghost use Rattle.mono_graph.specs.Instances.{PlainInstance, same_instance, instance_view, has_large, target, calls_of, roots};
ghost use Rattle.mono_graph.specs.Reading.{IsAll, IsRefused};
ghost use Rattle.mono_graph.specs.Graphs.{max_instances, IsGraphOf};
ghost use Rattle.graph_laws.specs.Closed.{IsClosed};
ghost use Rattle.graph_laws.specs.Numbers.{AreSmall};

/// Whatever the calls are, they have one answer: one list of instances is found, or one call is the first that is refused.
pub fn one_answer()
    ensures all { (calls : PlainInstance → List (CallOf TypeOf)) (limit : ℕ) (roots us ws : List PlainInstance) → IsAll calls limit roots us → IsAll calls limit roots ws → us ≡ ws }
    ensures refused { (calls : PlainInstance → List (CallOf TypeOf)) (limit : ℕ) (roots : List PlainInstance) (x y : RefusedCall) → IsRefused calls limit roots x → IsRefused calls limit roots y → x ≡ y }
    ensures apart { (calls : PlainInstance → List (CallOf TypeOf)) (limit : ℕ) (roots us : List PlainInstance) (x : RefusedCall) → IsAll calls limit roots us → IsRefused calls limit roots x → ⊥ }
{}

/// The instances of a program are what its roots reach: the one list that begins with the roots and goes on with the targets of its
/// members' calls, in the order of the first calls, each once. There are at most as many as the limit, and no call has an argument
/// that is too large.
pub fn found()
    ensures reached { (tree : PlainTree) (us : List PlainInstance) → IsTyped tree → IsAll (calls_of tree) max_instances (roots tree) us → IsFound same_instance (λ x. map target (calls_of tree x)) (roots tree) us }
    ensures once { (tree : PlainTree) (us : List PlainInstance) → IsTyped tree → IsAll (calls_of tree) max_instances (roots tree) us → IsDistinct same_instance us }
    ensures few { (tree : PlainTree) (us : List PlainInstance) → IsTyped tree → IsAll (calls_of tree) max_instances (roots tree) us → length us ≤ max_instances }
    ensures small { (tree : PlainTree) (us : List PlainInstance) → IsTyped tree → IsAll (calls_of tree) max_instances (roots tree) us → AllByRecursion (λ c. has_large c.generics ≡ false) (flat_map (calls_of tree) us) }
{}

/// Each instance of a program is of a function that is there, with arguments of the sorts of its generics. No generic stands in them.
pub fn closed()
    ensures { (tree : PlainTree) (us : List PlainInstance) → IsTyped tree → IsAll (calls_of tree) max_instances (roots tree) us → AllByRecursion (λ x. IsClosed tree x) us }
{}

/// Different instances have different symbols.
pub fn symbols()
    ensures { (tree : Contents) (x y : Instance) → IsTypedTree tree → IsTable tree.rows → AreSmall tree.rows → x.arguments < length tree.rows → y.arguments < length tree.rows → IsClosed (plain tree) (instance_view tree.rows x) → IsClosed (plain tree) (instance_view tree.rows y) → symbol_of tree x ≡ symbol_of tree y → x ≡ y }
{}

/// The graph of a program can be placed in units: symbols are distinct, callees are items, and there are few enough items.
pub fn placing()
    ensures { (tree : Contents) (graph : MonoGraph) → IsTypedTree tree → IsTable tree.rows → AreSmall tree.rows → IsGraphOf tree graph → IsGraph tree graph }
{}
