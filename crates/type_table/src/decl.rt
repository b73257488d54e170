//! What types ask of the structs that they name.
use lar_bytes::Text;

/// A struct as types name it, by its place in a list of these.
#[derive(Debug, Drop)]
pub struct StructDecl {
    /// The names of the modules that it stands in, joined with `::`.
    pub module: Text,
    pub name: Text,
    /// How many generics it has; each of them stands for a type.
    pub generics: usize,
    /// The list of its fields' types, as the number of a row.
    pub fields: usize,
    /// How many structs follow it in the longest chain in which each struct is named in a field of the one before.
    pub depth: usize,
}
