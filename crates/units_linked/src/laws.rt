//! What holds of units and the linker. The functions do nothing: their contracts are laws, for every reader to cite.
ghost use Rattle.std.specs.Prelude.{◌≡◌, List, map, Ok, Err};
ghost use Rattle.std.specs.List.{AllByRecursion};
ghost use Rattle.object_format.specs.Image.{Linked};
ghost use Rattle.object_format.specs.Object.{Unlinked, IsUnlinked};
ghost use Rattle.symbol_link.specs.declared.fault.LinkFault.TheVariants.{TooLarge};
ghost use Rattle.symbol_link.specs.Linked.{linked};
ghost use Rattle.unit_input.specs.Inputs.{PlainInput};
ghost use Rattle.unit_object.specs.Interface.{input_interface, object_interface};
ghost use Rattle.unit_object.specs.UnitObject.{object_of};
ghost use Rattle.units_linked.specs.Linkable.{AreLinkable};
ghost use Rattle.units_linked.specs.UnitsImage.{image_or_too_large};

/// Of objects that show what linkable units do, the linker makes the image, unless it is too large; it refuses them for no other
/// reason. It does not matter whether they were made now or kept before.
pub fn linkable()
    ensures shown { (us : List PlainInput) (os : List Unlinked) → AreLinkable (map input_interface us) → map object_interface os ≡ map input_interface us → linked os ≡ image_or_too_large os }
    ensures made { (us : List PlainInput) (os : List Unlinked) → AreLinkable (map input_interface us) → map object_of us ≡ map Ok os → linked os ≡ image_or_too_large os }
{}

/// No less is enough: objects that come to an image, or to one that is too large, show what linkable units do.
pub fn needed()
    ensures image { (os : List Unlinked) (image : Linked) → AllByRecursion IsUnlinked os → linked os ≡ Ok image → AreLinkable (map object_interface os) }
    ensures too_large { (os : List Unlinked) → AllByRecursion IsUnlinked os → linked os ≡ Err TooLarge → AreLinkable (map object_interface os) }
{}
