//! The opcodes of the stack machine.

ghost use Rattle.std.specs.Prelude.{◌≡◌};
ghost use Rattle.object_format.specs.Opcode.{row, opcode_of, operator_number};

/// What is made of two words, of which b is on top of a.
#[derive(Clone, Copy, Debug, PartialEq, Eq)]
pub enum Operator {
    Add,
    Sub,
    Mul,
    Div,
    Rem,
    Equal,
    NotEqual,
    Less,
    AtMost,
    Greater,
    AtLeast,
}

impl Operator {
    /// The byte of the instruction that computes it.
    pub fn number(self) -> u8
        ensures { result ≡ operator_number self }
    {
        match self {
            Operator::Add => 0x06,
            Operator::Sub => 0x07,
            Operator::Mul => 0x08,
            Operator::Div => 0x09,
            Operator::Rem => 0x0a,
            Operator::Equal => 0x0c,
            Operator::NotEqual => 0x0d,
            Operator::Less => 0x0e,
            Operator::AtMost => 0x0f,
            Operator::Greater => 0x10,
            Operator::AtLeast => 0x11,
        }
    }
}

/// What an instruction does.
#[derive(Clone, Copy, Debug, PartialEq, Eq)]
pub enum Opcode {
    /// Pushes its operand, one signed byte.
    Push8,
    /// Pushes its operand, eight signed bytes.
    Push64,
    /// Pushes the slot that its operand numbers.
    Load,
    /// Pops into the slot that its operand numbers.
    Store,
    /// Drops the top.
    Pop,
    /// Pops b and then a, and pushes what the operator makes of them.
    Compute(Operator),
    /// Pops, and pushes the opposite.
    Neg,
    /// 1 for 0, and 0 for all else.
    Not,
    /// Goes on at the offset that is its operand.
    Jump,
    /// Pops, and goes on at the offset that is its operand where that was 0.
    JumpZero,
    /// Calls the function that its operand numbers.
    Call,
    /// Leaves the words on top to the caller.
    Return,
    /// Pops, and writes that in decimal with a line's end.
    Print,
    /// Traps.
    Trap,
    /// Pushes the top once more.
    Dup,
    /// Does nothing.
    Nop,
}

impl Opcode {
    /// The opcode that a byte stands for.
    #[inline(always)]
    pub fn of(byte: u8) -> Option<Opcode>
        ensures { result ≡ opcode_of byte }
    {
        match byte {
            0x01 => Some(Opcode::Push8),
            0x02 => Some(Opcode::Push64),
            0x03 => Some(Opcode::Load),
            0x04 => Some(Opcode::Store),
            0x05 => Some(Opcode::Pop),
            0x06 => Some(Opcode::Compute(Operator::Add)),
            0x07 => Some(Opcode::Compute(Operator::Sub)),
            0x08 => Some(Opcode::Compute(Operator::Mul)),
            0x09 => Some(Opcode::Compute(Operator::Div)),
            0x0a => Some(Opcode::Compute(Operator::Rem)),
            0x0b => Some(Opcode::Neg),
            0x0c => Some(Opcode::Compute(Operator::Equal)),
            0x0d => Some(Opcode::Compute(Operator::NotEqual)),
            0x0e => Some(Opcode::Compute(Operator::Less)),
            0x0f => Some(Opcode::Compute(Operator::AtMost)),
            0x10 => Some(Opcode::Compute(Operator::Greater)),
            0x11 => Some(Opcode::Compute(Operator::AtLeast)),
            0x12 => Some(Opcode::Not),
            0x13 => Some(Opcode::Jump),
            0x14 => Some(Opcode::JumpZero),
            0x15 => Some(Opcode::Call),
            0x16 => Some(Opcode::Return),
            0x17 => Some(Opcode::Print),
            0x18 => Some(Opcode::Trap),
            0x19 => Some(Opcode::Dup),
            0x1a => Some(Opcode::Nop),
            _ => None,
        }
    }

    /// The byte that stands for it.
    pub fn number(self) -> u8
        ensures { result ≡ (row self).number }
    {
        match self {
            Opcode::Push8 => 0x01,
            Opcode::Push64 => 0x02,
            Opcode::Load => 0x03,
            Opcode::Store => 0x04,
            Opcode::Pop => 0x05,
            Opcode::Compute(operator) => operator.number(),
            Opcode::Neg => 0x0b,
            Opcode::Not => 0x12,
            Opcode::Jump => 0x13,
            Opcode::JumpZero => 0x14,
            Opcode::Call => 0x15,
            Opcode::Return => 0x16,
            Opcode::Print => 0x17,
            Opcode::Trap => 0x18,
            Opcode::Dup => 0x19,
            Opcode::Nop => 0x1a,
        }
    }

    /// How many bytes of operand stand behind it.
    #[inline(always)]
    pub fn operand_len(self) -> usize
        ensures { result ≡ (row self).operand }
    {
        match self {
            Opcode::Push8 | Opcode::Load | Opcode::Store => 1,
            Opcode::Push64 => 8,
            Opcode::Jump | Opcode::JumpZero | Opcode::Call => 4,
            _ => 0,
        }
    }
}
