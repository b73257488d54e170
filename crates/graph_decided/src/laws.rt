//! What holds of reading calls: the law is the contract of a function that does nothing, which a caller calls to have the law.
ghost use Rattle.std.specs.Prelude.{ℕ, ◌⊎◌, List};
ghost use Rattle.lar_typed.specs.Calls.{CallOf};
ghost use Rattle.type_table.specs.TypeOf.{TypeOf};
ghost use Rattle.mono_graph.specs.declared.refused.RefusedCall.{RefusedCall};
ghost use Rattle.mono_graph.specs.Instances.{PlainInstance};
ghost use Rattle.mono_graph.specs.Reading.{IsAll, IsRefused};

/// Reading ends, whatever the calls of instances, the limit and the roots are: all is found, or a call is refused.
pub fn ends()
    ensures { (calls : PlainInstance → List (CallOf TypeOf)) (limit : ℕ) (roots : List PlainInstance) → ((us : List PlainInstance) × IsAll calls limit roots us) ⊎ ((e : RefusedCall) × IsRefused calls limit roots e) }
{}
