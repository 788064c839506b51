//! The operators of the language (Programmer's Manual, "Expressions").

/// An operator between two operands that are both evaluated.
#[derive(Clone, Copy, PartialEq, Eq, Debug)]
pub enum BinaryOperator {
    /// `+`
    Plus,
    /// `-`
    Minus,
    /// `*`
    Times,
    /// `/`
    DividedBy,
    /// `%`
    RemainderBy,
    /// `^`
    ToThe,
    /// `==`
    Equals,
    /// `!=`
    Differs,
    /// `<`
    Less,
    /// `<=`
    LessOrEqual,
    /// `>`
    Greater,
    /// `>=`
    GreaterOrEqual,
    /// `in`
    IsIn,
}

/// An operator before one operand.
#[derive(Clone, Copy, PartialEq, Eq, Debug)]
pub enum UnaryOperator {
    /// `-`
    Negation,
    /// `!`
    NotTrue,
}
