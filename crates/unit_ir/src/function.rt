use crate::IrStmt;
use lar_bytes::Text;
use sqlite_items::Items;

/// A function of a unit. What it keeps, its unit says: its parameters lie in its first slots, and each slot that its body names
/// is below `slots`.
#[derive(Drop)]
pub struct IrFn {
    pub symbol: Text,
    /// Whether other units may call it.
    pub external: bool,
    /// How many words it takes.
    pub params: u8,
    /// How many words it gives.
    pub result: u8,
    /// How many words it keeps in slots, its parameters among them.
    pub slots: u8,
    pub body: Items<IrStmt>,
}
