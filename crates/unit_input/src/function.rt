//! The functions of a unit, and those that it calls and other units have.
use crate::UnitStmt;
use lar_bytes::Text;
use sqlite_items::Items;

/// A function of a unit.
#[derive(Drop)]
pub struct UnitFn {
    pub symbol: Text,
    /// Whether other units may call it; a copy that only this unit calls is not external.
    pub external: bool,
    /// How many words it gives.
    pub result: u16,
    /// How many of the locals are parameters. These come first.
    pub params: u8,
    /// How many words each local has, in the order of their numbers.
    pub locals: Items<u16>,
    pub body: Items<UnitStmt>,
}

/// What a unit knows of a function of another unit.
#[derive(Drop)]
pub struct ExternalFn {
    pub symbol: Text,
    /// How many words it takes.
    pub params: u16,
    /// How many words it gives.
    pub result: u16,
}
