//! Laws of what is reached.

ghost use Rattle.std.specs.Prelude.{◌≡◌, ℕ, List, true, nat_eq};
ghost use Rattle.std.specs.List.{IsDistinct};
ghost use Rattle.reach.specs.Reach.{IsFound, Leads, has};

/// What is found from roots is one list.
pub fn found_is_one()
    ensures { (calls : ℕ → List ℕ) (roots us vs : List ℕ) → IsDistinct nat_eq roots → IsFound nat_eq calls roots us → IsFound nat_eq calls roots vs → us ≡ vs }
{}

/// A list of calls leads from a root to each member, and to no other item.
pub fn found_is_reached()
    ensures to { (calls : ℕ → List ℕ) (roots us : List ℕ) → IsDistinct nat_eq roots → IsFound nat_eq calls roots us → (x : ℕ) → has nat_eq x us ≡ true → (h : ℕ) × (has nat_eq h roots ≡ true) × ((n : ℕ) × Leads nat_eq calls n h x) }
    ensures from { (calls : ℕ → List ℕ) (roots us : List ℕ) → IsDistinct nat_eq roots → IsFound nat_eq calls roots us → (n h x : ℕ) → has nat_eq h us ≡ true → Leads nat_eq calls n h x → has nat_eq x us ≡ true }
{}
