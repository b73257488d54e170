//! What holds of every lawful run, however its answers come: each law is the contract of a function
//! that does nothing, which a caller calls to have the law.
//!
//! They are said of the definitions of `specs/`, which `Core` is proved to follow.
ghost use Rattle.std.specs.Prelude.{◌≡◌, ◌*◌, ◌<◌, ◌≤◌, ◌+◌, ◌++◌, ℕ, true, false, [], ◌∷◌, length, List, Option, Some, None, MatchOption, Bool, nat_lt, if◌then◌else◌};
ghost use Rattle.counting.specs.Count.{times};
ghost use Rattle.coord_core.specs.declared.event.Event.{Event};
ghost use Rattle.coord_core.specs.declared.terms.Terms.{Terms};
ghost use Rattle.coord_core.specs.State.{State, byte_at};
ghost use Rattle.coord_core.specs.Effect.{effect};
ghost use Rattle.coord_core.specs.Decide.{decided, actions_of};
ghost use Rattle.coord_core.specs.Run.{run, answers_from, is_awaited, Lawful, is_finished};
ghost use Rattle.coord_core.specs.Journal.{lowered_by, lowered, failed, wanted, took, gave, lost, begun, least};
ghost use Rattle.coord_core.specs.Laws.{Bounded, Complete, Barred, IsLeast, InOrder, InHand, GoesOn, Few, Fits, Acted, Told, IsOrdered};

/// The tokens bound the jobs: after every event, and between an event and what is decided on it.
/// After the decisions no token is spare.
pub fn bound()
    ensures after { (terms : Terms) (events : List Event) → 0 < terms.lanes → Lawful terms events → Bounded terms.lanes (run terms events) }
    ensures between { (terms : Terms) (events : List Event) (e : Event) → 0 < terms.lanes → Lawful terms events → is_awaited (run terms events) e ≡ true → Bounded terms.lanes (effect e (run terms events)) }
    ensures spare { (terms : Terms) (events : List Event) → (run terms events).spare ≡ None }
{}

/// Units are generated in the order 0, 1, 2, each once, and none is started twice.
pub fn order()
    ensures { (terms : Terms) (events : List Event) → Lawful terms events → InOrder terms events }
{}

/// From the first event on that lowers the bar no generation is begun: from the first failure, and of a
/// run that keeps going from the first unit that found no memory.
pub fn closed()
    ensures { (terms : Terms) (before after : List Event) (e : Event) (i : ℕ) → Lawful terms (before ++ e ∷ after) → lowered_by terms.keep e ≡ i ∷ [] → begun (answers_from (run terms before) (e ∷ after)) ≡ [] }
{}

/// A finished run has nothing left to do, and has made each unit below the bar. Of a run that keeps
/// going each of them was made or refused.
pub fn complete()
    ensures { (terms : Terms) (events : List Event) → Lawful terms events → is_finished (run terms events) ≡ true → Complete (run terms events) events }
{}

/// The bar is the least unit whose failure lowers it: one that failed, and in a run that keeps going one
/// that found no memory. Where there is none it is the number of units. So the bar of a run that does
/// not keep going names the first failure, and that of one that does names a unit that found no memory.
pub fn bar()
    ensures bar { (terms : Terms) (events : List Event) → Lawful terms events → Barred terms (run terms events) events }
    ensures names { (terms : Terms) (events : List Event) → Lawful terms events → least (lowered terms.keep events) ≡ (if nat_lt (run terms events).bar terms.units then Some (run terms events).bar else None) }
    ensures failure { (terms : Terms) (events : List Event) → Lawful terms events → terms.keep ≡ false → least (failed events) ≡ (if nat_lt (run terms events).bar terms.units then Some (run terms events).bar else None) }
    ensures wanted { (terms : Terms) (events : List Event) → Lawful terms events → terms.keep ≡ true → (run terms events).bar < terms.units → 1 ≤ times (run terms events).bar (wanted events) }
    ensures least { (numbers : List ℕ) → MatchOption (least numbers) (numbers ≡ []) (IsLeast numbers) }
{}

/// Each token that was taken pays a job, is spare, is being given back, was given back or was lost.
/// Of a finished run's each was given back or lost.
pub fn bag()
    ensures bag { (terms : Terms) (events : List Event) → Lawful terms events → (x : ℕ) → times x (took events) ≡ byte_at x (run terms events) + times x (gave events) + times x (lost events) }
    ensures returned { (terms : Terms) (events : List Event) → Lawful terms events → is_finished (run terms events) ≡ true → (x : ℕ) → times x (took events) ≡ times x (gave events) + times x (lost events) }
{}

/// There are at most eight events a unit, two of it and three each of asks and gives, and the lists of
/// the state have room.
pub fn room()
    ensures events { (terms : Terms) (events : List Event) → Lawful terms events → length events ≤ 8 * terms.units }
    ensures kinds { (terms : Terms) (events : List Event) → Lawful terms events → Few terms.units events }
    ensures lists { (terms : Terms) (events : List Event) → Lawful terms events → Fits terms.units (run terms events) }
{}

/// The queue is in order, its head the dearest unit and of equally dear ones the first; and it is short.
pub fn queue()
    ensures order { (terms : Terms) (events : List Event) → IsOrdered (run terms events).queue }
    ensures short { (terms : Terms) (events : List Event) → 0 < terms.lanes → terms.lanes ≤ 64 → Lawful terms events → length (run terms events).queue ≤ 16 }
{}

/// No unit is twice generated, queued or running, and each that is was reached by generation.
pub fn hand()
    ensures { (terms : Terms) (events : List Event) → Lawful terms events → InHand terms.units (run terms events) }
{}

/// What an awaited event changes, and what the decisions change, told by their actions.
pub fn change()
    ensures told { (e : Event) (s : State) → is_awaited s e ≡ true → s.spare ≡ None → Told e s (effect e s) }
    ensures acted { (may : Bool) (s : State) → Acted s (decided may s) (actions_of may s) }
{}

/// A lawful run goes on by any awaited event, one step further.
pub fn goes_on()
    ensures { (terms : Terms) (events : List Event) (e : Event) → Lawful terms events → is_awaited (run terms events) e ≡ true → GoesOn terms events e }
{}
