//! The limits that belong to the grammar. `specs/Limits.antt` has the same for definitions.

/// The most parts of a tuple.
pub const MAX_TUPLE: u8 = 8;

/// The most parameters of a function, arguments of a call, and generics of either, of a struct or of `new`.
pub const MAX_ARGS: u8 = 16;

/// The most fields of a struct, and inits of `new`.
pub const MAX_FIELDS: u8 = 64;

/// The most tokens of an expression that stands in no other, and of a type that stands in no other type and in no expression.
pub const MAX_TOKENS: u16 = 512;

/// The most levels of blocks and modules.
pub const MAX_LEVELS: u8 = 64;
