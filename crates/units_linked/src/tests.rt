//! A unit linked alone.
ghost use Rattle.std.specs.Prelude.{◌<◌, ◌^◌, length, map, IfOk};
ghost use Rattle.unit_object.specs.Interface.{object_interface};
ghost use Rattle.units_linked.specs.Linkable.{AreLinkable};

use crate::link_units;
use lar_bytes::OrMemory;
use object_format::{Object, read_object};
use std::alloc::{AllocError, Global};
use std::test::Fail;

// The object of the unit of `main::main` that prints 7.
const PRINTS_7: [u8; 40] = [
    0x4c, 0x52, 0x4f, 0x42, 0, 2, 0, 0, 0, 1, 0, 0, 0, 10, 0x6d, 0x61, 0x69, 0x6e, 0x3a, 0x3a,
    0x6d, 0x61, 0x69, 0x6e, 1, 0, 0, 0, 0, 0, 0, 4, 0x01, 7, 0x17, 0x16, 0, 0, 0, 0,
];

// Its objects: that one alone.
fn objects(alloc: Global) -> Result<Vec<Object>, AllocError>
    ensures few { IfOk result (λ os. length os.items < 2 ^ 32) }
    ensures linkable { IfOk result (λ os. AreLinkable (map object_interface os.items)) }
{
    let object = match read_object(alloc, PRINTS_7.as_slice()) {
        Ok(object) => object,
        Err(OrMemory::Memory) => return Err(AllocError),
        Err(OrMemory::Refused(_)) => unreachable!(),
    };
    let mut objects = Vec::new(alloc);
    objects.push(object)?;
    Ok(objects)
}

// The entry of the image.
fn entry(alloc: Global) -> Result<Option<u32>, AllocError> {
    let objects = objects(alloc)?;
    match link_units(alloc, objects.as_slice()) {
        Ok(image) => Ok(Some(image.entry())),
        Err(_) => Ok(None),
    }
}

#[test]
fn a_unit_is_linked(rt: HostRuntime) -> Result<(), Fail> {
    assert_eq!(rt; entry(rt.alloc())?, Some(0));
    Ok(())
}
