//! How long the image of objects will be, before it is made.
//!
//! Relocation changes no length, so that the objects alone tell it. What is left of the room is counted down, so no sum can pass a
//! number's limit whatever the objects are.

ghost use Rattle.std.specs.Prelude.{◌≡◌, ◌≤◌, ◌↔◌, IsTrue};
ghost use Rattle.symbol_link.specs.Linked.{most};
ghost use Rattle.symbol_link.specs.Sizes.{left_of, size_of, sizes_of, image_size};

use object_format::{Object, ObjectFn, Version};

/// The most bytes that the spelling of an image may have.
const MOST: u64 = 67_108_864;

/// The bytes of an image that stand before its functions.
const HEAD: u64 = 14;

/// What these functions leave of the room, if they have room.
fn room_behind(room: u64, functions: &[ObjectFn]) -> Option<u64>
    ensures { result ≡ left_of room (size_of functions.now) }
{
    let mut room = room;
    for function in functions {
        let head = Version::Two.code_offset();
        room = room.checked_sub(head + function.code().len() as u64)?;
    }
    Some(room)
}

/// What the functions of these objects leave of the room, if they have room.
fn room_behind_all(room: u64, objects: &[Object]) -> Option<u64>
    ensures { result ≡ left_of room (sizes_of objects.now) }
{
    let mut room = room;
    for object in objects {
        room = room_behind(room, object.functions())?;
    }
    Some(room)
}

/// Whether the image of these objects may be as long as it will be.
pub(crate) fn fits(objects: &[Object]) -> bool
    ensures { IsTrue result ↔ (image_size objects.now ≤ most) }
{
    room_behind_all(MOST - HEAD, objects).is_some()
}
