//! What a row of a table is.

/// A row of the table. Its numbers name rows above it.
#[derive(Clone, Copy, Debug, PartialEq, Eq, PartialOrd, Ord)]
pub enum Row {
    /// `i64`
    Int,
    /// `bool`
    Bool,
    /// A generic by its number.
    Param(usize),
    /// A number that stands for a const generic.
    Number(i64),
    /// The empty list of types.
    End,
    /// A list: the first, and the list of the others.
    More(usize, usize),
    /// A tuple, by the list of its parts.
    Tuple(usize),
    /// A struct, and the list of its arguments.
    Struct(usize, usize),
}
