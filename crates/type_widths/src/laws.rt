//! What holds of widths: each law is the contract of a function that does nothing, which a caller calls to have the law.
ghost use Rattle.std.specs.Prelude.{◌≡◌, ℕ, ◌<◌, ◌≤◌, true, List, [], ◌∷◌, min, map};
ghost use Rattle.type_table.specs.declared.sort.Sort.{Sort};
ghost use Rattle.type_table.specs.TypeOf.{TypeOf, struct};
ghost use Rattle.type_table.specs.Substitution.{subst, Below};
ghost use Rattle.type_table.specs.Lawful.{Wanted, these, fits};
ghost use Rattle.type_table.specs.Depth.{Under};
ghost use Rattle.type_widths.specs.Form.{dot, IsForm};
ghost use Rattle.type_widths.specs.Width.{width, struct_width, widths_by};

/// The width of a type with arguments in it is that of the type where each generic is as wide as its argument.
pub fn substituted_width()
    ensures { (fields : ℕ → TypeOf) (d : ℕ) (ws : List ℕ) (structs : List (List Sort)) (old new : List Sort) (a t : TypeOf) (w : Wanted) →
        fits structs new a (these old) ≡ true → fits structs old t w ≡ true →
        width fields d ws (subst a t) ≡ width fields d (widths_by (struct_width fields d) ws a) t }
{}

/// A struct is as wide as its fields with the arguments in them, where no struct leads back to itself.
pub fn struct_width_is()
    ensures { (fields : ℕ → TypeOf) (depth : ℕ → ℕ) (d n : ℕ) (ws : List ℕ) (structs : List (List Sort)) (old new : List Sort) (a : TypeOf) (w : Wanted) →
        ((m : ℕ) → Under depth (depth m) (fields m)) → depth n < d →
        fits structs new a (these old) ≡ true → fits structs old (fields n) w ≡ true →
        width fields d ws (struct n a) ≡ width fields d ws (subst a (fields n)) }
{}

/// What `value` answers for the form of a type is its width; 256 stands for all above 255.
pub fn forms_are_widths()
    ensures { (fields : ℕ → TypeOf) (depth : ℕ → ℕ) (d : ℕ) (t : TypeOf) (form ws : List ℕ) → IsForm fields depth t form → Below 16 t → Under depth d t →
        min (dot form (1 ∷ ws)) 256 ≡ min (width fields d ws t) 256 }
{}

/// It is the same where the widths of the generics were cut to 256 before.
pub fn cut_widths_serve()
    ensures { (form ws : List ℕ) → min (dot form (1 ∷ map (λ w. min w 256) ws)) 256 ≡ min (dot form (1 ∷ ws)) 256 }
{}

/// The width of an expression's type under an instance is the value of the type's form at the widths of the
/// instance's arguments; nothing is replaced for it.
pub fn width_under_instance()
    ensures { (fields : ℕ → TypeOf) (depth : ℕ → ℕ) (d : ℕ) (arguments t : TypeOf) (form : List ℕ) (structs : List (List Sort)) (generics : List Sort) (w : Wanted) →
        IsForm fields depth t form → Below 16 t → Under depth d t → fits structs [] arguments (these generics) ≡ true → fits structs generics t w ≡ true →
        min (dot form (1 ∷ widths_by (struct_width fields d) [] arguments)) 256 ≡ min (width fields d [] (subst arguments t)) 256 }
{}
