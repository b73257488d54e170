//! What holds of every table and every type: each law is the contract of a function that does nothing, which a caller calls to have
//! the law.
ghost use Rattle.std.specs.Prelude.{◌≡◌, ℕ, ◌<◌, true, List, length};
ghost use Rattle.type_table.specs.declared.row.Row.{Row};
ghost use Rattle.type_table.specs.TypeOf.{TypeOf};
ghost use Rattle.type_table.specs.Rows.{IsTable, Keeps, Stands, type_at, type_of, types, row_at};
ghost use Rattle.type_table.specs.Substitution.{subst, count, Below};
ghost use Rattle.type_table.specs.declared.sort.Sort.{Sort};
ghost use Rattle.type_table.specs.Lawful.{Wanted, these, fits};

/// Equal types have equal numbers.
pub fn equal_types()
    ensures { (rows : List Row) (i j : ℕ) → IsTable rows → i < length rows → j < length rows → type_at rows i ≡ type_at rows j → i ≡ j }
{}

/// The type of a number is that of its row.
pub fn rows_of_types()
    ensures { (rows : List Row) (i : ℕ) → IsTable rows → i < length rows → type_at rows i ≡ type_of (types rows) (row_at rows i) }
{}

/// A table that grows twice has grown, and what stood for a type still does.
pub fn grown()
    ensures twice { (old mid new : List Row) → Keeps old mid → Keeps mid new → Keeps old new }
    ensures stands { (old new : List Row) (n : ℕ) (t : TypeOf) → Keeps old new → Stands old n t → Stands new n t }
{}

/// A type without generics stays as it is.
pub fn closed_stays()
    ensures { (a t : TypeOf) → Below 0 t → subst a t ≡ t }
{}

/// To replace twice is to replace once, by arguments that were replaced.
pub fn composed()
    ensures { (a b t : TypeOf) → Below (count a) t → subst b (subst a t) ≡ subst (subst b a) t }
{}

/// Where the arguments are of the sorts of the generics, a lawful type stays lawful, under the generics of the arguments.
pub fn keeps_lawful()
    ensures { (structs : List (List Sort)) (old new : List Sort) (a t : TypeOf) (w : Wanted) → fits structs new a (these old) ≡ true → fits structs old t w ≡ true → fits structs new (subst a t) w ≡ true }
{}
