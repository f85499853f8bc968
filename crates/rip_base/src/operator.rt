/// The operators with two operands that are both evaluated (ECMA-262 11.5 to 11.10).
#[derive(Clone, Copy, Debug, PartialEq, Eq)]
pub enum BinaryOperator {
    Multiply,
    Divide,
    Remainder,
    Add,
    Subtract,
    ShiftLeft,
    ShiftRight,
    ShiftRightUnsigned,
    Less,
    Greater,
    LessOrEqual,
    GreaterOrEqual,
    InstanceOf,
    In,
    Equal,
    NotEqual,
    StrictEqual,
    StrictNotEqual,
    BitAnd,
    BitXor,
    BitOr,
}

/// The operators whose right operand may not be evaluated (ECMA-262 11.11).
#[derive(Clone, Copy, Debug, PartialEq, Eq)]
pub enum LogicalOperator {
    And,
    Or,
}

/// The prefix operators that change no target (ECMA-262 11.4.1 to 11.4.3, 11.4.6 to 11.4.9).
#[derive(Clone, Copy, Debug, PartialEq, Eq)]
pub enum UnaryOperator {
    Delete,
    Void,
    TypeOf,
    Plus,
    Minus,
    BitNot,
    Not,
}

/// `++` and `--` (ECMA-262 11.3, 11.4.4, 11.4.5).
#[derive(Clone, Copy, Debug, PartialEq, Eq)]
pub enum StepOperator {
    Increment,
    Decrement,
}
