//! What the contract of `drive` says of the outcomes without their events, and what holds where it was
//! not called. Each law is the contract of a function that does nothing, which a caller calls to have it.
ghost use Rattle.std.specs.Prelude.{◌≡◌, ◌<◌, ℕ, Bool, List, []};
ghost use Rattle.token_pool.specs.Pool.{PoolState};
ghost use Rattle.coord_core.specs.declared.event.Event.{Event};
ghost use Rattle.coord_core.specs.declared.terms.Terms.{Terms};
ghost use Rattle.coord_run.specs.declared.driven.Made.{Made};
ghost use Rattle.coord_run.specs.Meaning.{Meaning};
ghost use Rattle.coord_run.specs.Journal.{jobs_ended};
ghost use Rattle.coord_run.specs.Outcomes.{AreOutcomes, outcome_at};
ghost use Rattle.coord_run.specs.Driven.{IsRepaid};
ghost use Rattle.coord_run.specs.Whole.{IsMade, IsFirstTold, IsDefined, HasOneFault, IsMadeAs};

/// Each outcome is the work's definition of its unit. Where a unit has one fault, which it has both when
/// it is generated and when it is made, a refusal is that fault. Before each unit that was skipped there
/// is one that found no memory or, where the session does not keep going, one that was refused: so the
/// first outcome that is not `Made` is no `Skipped`, and a session that keeps going and never wants for
/// memory skips none. Where every unit was made, as many jobs ended as there are units.
pub fn outcomes_are_whole<P, F>()
    ensures defined { (m : Meaning P F) (keep : Bool) (events : List Event) (outcomes : List (Made F)) → AreOutcomes m keep events outcomes → (x : ℕ) → IsDefined m x (outcome_at outcomes x) }
    ensures one_fault { (m : Meaning P F) (keep : Bool) (events : List Event) (outcomes : List (Made F)) → HasOneFault m → AreOutcomes m keep events outcomes → (x : ℕ) → IsMadeAs m x (outcome_at outcomes x) }
    ensures first { (m : Meaning P F) (keep : Bool) (events : List Event) (outcomes : List (Made F)) → AreOutcomes m keep events outcomes → IsFirstTold keep m.count outcomes }
    ensures counted { (m : Meaning P F) (keep : Bool) (terms : Terms) (events : List Event) (outcomes : List (Made F)) → AreOutcomes m keep events outcomes → ((x : ℕ) → x < m.count → IsMade (outcome_at outcomes x)) → jobs_ended terms events ≡ m.count }
{}

/// A pool that was not called is repaid: nothing was taken, given or lost.
pub fn never_called()
    ensures { (pool : PoolState) → IsRepaid pool [] [] pool }
{}
