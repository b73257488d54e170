//! What holds of the object of every unit. The functions do nothing: their contracts are laws, for every reader to cite.
ghost use Rattle.std.specs.Prelude.{◌≡◌, Ok, Err};
ghost use Rattle.object_format.specs.Object.{Unlinked, IsObject, SpellsObject, object_spelling};
ghost use Rattle.unit_input.specs.Inputs.{PlainInput};
ghost use Rattle.unit_input.specs.Rules.{IsInput};
ghost use Rattle.unit_ir.specs.declared.fault.UnitFault.{UnitFault};
ghost use Rattle.unit_object.specs.FaultPlace.{StandsIn};
ghost use Rattle.unit_object.specs.Interface.{input_interface, object_interface};
ghost use Rattle.unit_object.specs.UnitObject.{object_of};

/// A unit's object keeps the rules of objects, its spelling is read as that object and no other, and a linker sees of it just what
/// stands in the unit's input.
pub fn objects()
    ensures keeps { (x : PlainInput) (o : Unlinked) → IsInput x → object_of x ≡ Ok o → IsObject o }
    ensures spelled { (x : PlainInput) (o : Unlinked) → IsInput x → object_of x ≡ Ok o → SpellsObject (object_spelling o) o }
    ensures shown { (x : PlainInput) (o : Unlinked) → object_of x ≡ Ok o → object_interface o ≡ input_interface x }
{}

/// A unit's fault stands in one of the unit's functions, and in one of that function's assertions where its number is 30 or 31. So a
/// place in a source can be found for it.
pub fn faults()
    ensures { (x : PlainInput) (fault : UnitFault) → object_of x ≡ Err fault → StandsIn x fault }
{}
