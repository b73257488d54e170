/// A unit that cannot be compiled.
#[derive(Clone, Copy, Debug, PartialEq, Eq)]
pub struct UnitFault {
    /// The diagnostic's number.
    pub code: u8,
    /// The function's number in the unit, from 0.
    pub function: u32,
    /// The number of the assertion in the function's body, from 0 in reading order; 0 where the fault is not one of an assertion.
    pub assertion: u32,
}
