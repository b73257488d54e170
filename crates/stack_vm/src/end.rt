//! How a run ends.

/// Why an instruction traps.
#[derive(Clone, Copy, Debug, PartialEq, Eq)]
pub enum Kind {
    /// A divisor is 0.
    Division,
    /// The least word by -1.
    Overflow,
    /// Too many frames, or too many operand words.
    Depth,
    /// The instruction that always traps.
    Trap,
}

/// How a run ends.
#[derive(Clone, Copy, Debug, PartialEq, Eq)]
pub enum End {
    /// The entry returned.
    Ended,
    /// An instruction trapped, the one at this offset of this function's code.
    Trapped {
        kind: Kind,
        function: u32,
        offset: u32,
    },
    /// The steps did not end it.
    OutOfSteps,
    /// A put failed.
    WriteFault,
    /// The sink found no memory.
    Memory,
}
