//! What was begun and is not whole yet: what has to be found first, and what is kept until then.
//! `brackets` tells whether something stands in brackets, where `$` may, and `line` is that of its first token.

use moo_reader::block::{Block, FoundStatement};
use moo_reader::found::{Allowed, BracedItem, Found, FoundCodes, Join, Operand, Scattering};
use moo_reader::node::Nodes;
use moo_token::token::{Keyword, Sign};
use moo_tree::expression::Target;
use moo_value::operator::UnaryOperator;
use moo_value::text::Text;

/// Something that was begun, by what has to be found first.
#[derive(Drop)]
pub enum Frame {
    Expression(ExpressionFrame),
    Operand(OperandFrame),
    Arguments(ArgumentsFrame),
    Items(ItemsFrame),
    Codes(CodesFrame),
    /// The statements behind the one that is to be found.
    Statement,
    Block(BlockFrame),
    Branches(BranchesFrame),
    Arms(ArmsFrame),
}

/// Something that goes on behind an expression, by what it is.
#[derive(Drop)]
pub enum ExpressionFrame {
    Expression(WithinExpression),
    Operand(WithinOperand),
    /// An argument, spliced or not.
    Argument { brackets: bool, spliced: bool },
    Items(WithinItems),
    Statement(WithinStatement),
    /// The condition of a branch.
    Condition,
}

/// A part of an expression. A level tells how tightly what goes on behind it has to bind: 0 is any expression.
#[derive(Drop)]
pub enum WithinExpression {
    /// Up to the closing parenthesis. The line is that of the opening one.
    Parentheses {
        line: u64,
    },
    /// The right operand.
    RightOf {
        brackets: bool,
        level: u8,
        left: Found,
        join: Join,
    },
    /// The value between `?` and `|`.
    ChosenFirst {
        brackets: bool,
        level: u8,
        condition: Found,
    },
    /// The value behind `|`.
    ChosenSecond {
        brackets: bool,
        level: u8,
        condition: Found,
        first: Found,
    },
    /// The value of an assignment to a target with this line and these nodes.
    AssignedTo {
        target: Box<Target>,
        line: u64,
        nodes: Box<Nodes>,
    },
    /// The value of a scatter.
    ScatteredTo {
        line: u64,
        scattering: Box<Scattering>,
    },
    /// Up to the closing parenthesis of a statement's head.
    Head,
}

/// A part of an operand.
#[derive(Drop)]
pub enum WithinOperand {
    /// It is the operand itself.
    Whole,
    /// Behind an operator of one operand.
    Unary {
        operator: UnaryOperator,
        line: u64,
    },
    /// The name of a property in parentheses.
    PropertyName {
        brackets: bool,
        object: Operand,
    },
    /// The name of a verb in parentheses.
    VerbName {
        brackets: bool,
        object: Operand,
    },
    /// An index, or the first one of a range.
    Index {
        brackets: bool,
        list: Operand,
    },
    /// The last index of a range.
    Range {
        brackets: bool,
        list: Operand,
        first: Found,
    },
    /// An expression whose errors are caught.
    Caught {
        brackets: bool,
        line: u64,
    },
    /// The value that stands in the place of an error.
    Instead {
        line: u64,
        caught: Found,
        codes: Box<FoundCodes>,
    },
}

/// A part of the items of braces.
#[derive(Drop)]
pub enum WithinItems {
    /// An item of a list, spliced or not.
    Value {
        brackets: bool,
        allowed: Allowed,
        spliced: bool,
    },
    /// The value of a variable that the list has none for. Its name is as it is written.
    Default {
        brackets: bool,
        allowed: Allowed,
        name: Text,
    },
}

/// A part of a statement.
#[derive(Drop)]
pub enum WithinStatement {
    /// An expression whose value is dropped.
    Evaluated {
        line: u64,
    },
    Returned {
        line: u64,
    },
    /// The expression of a loop or a fork.
    HeadOf {
        line: u64,
        head: Box<Head>,
    },
    /// The first value of a range, by the loop's variable.
    RangeFirst {
        line: u64,
        variable: Text,
    },
    RangeLast {
        line: u64,
        variable: Box<Text>,
        first: Found,
    },
}

/// A loop or a fork whose expression is read. Its name is in lower case.
#[derive(Drop)]
pub enum Head {
    For(Text),
    While(Option<Text>),
    Fork(Option<Text>),
}

/// A loop or a fork whose body is read. Its name is in lower case.
#[derive(Drop)]
pub enum Body {
    List(Text, Found),
    Range(Text, Found, Found),
    While(Option<Text>, Found),
    Fork(Option<Text>, Found),
}

/// Something that goes on behind an operand.
#[derive(Drop)]
pub enum OperandFrame {
    /// Steps, as `.x` and `[i]`.
    Steps { brackets: bool },
    /// An assignment, or operators that bind at least as tightly as this level.
    Value { brackets: bool, level: u8 },
}

/// Something that goes on behind arguments.
#[derive(Drop)]
pub enum ArgumentsFrame {
    /// An argument before them, spliced or not.
    Behind { spliced: bool, argument: Found },
    /// Up to this sign.
    To(Sign),
    /// A call of a function, whose name is as it is written.
    CallOf { name: Text, line: u64 },
    VerbOf { object: Found, name: Found },
    /// They are codes of errors.
    Codes,
}

/// Something that goes on behind the items of braces.
#[derive(Drop)]
pub enum ItemsFrame {
    /// An item before them.
    Behind(BracedItem),
    /// The braces, by the line of the opening one.
    Braces { line: u64 },
}

/// Something that goes on behind codes of errors.
#[derive(Drop)]
pub enum CodesFrame {
    /// A caught expression.
    Caught {
        brackets: bool,
        line: u64,
        caught: Found,
    },
    /// A handler, by the variable that gets the error.
    Arm {
        variable: Option<Text>,
    },
}

/// Something that goes on behind a block.
#[derive(Drop)]
pub enum BlockFrame {
    /// A statement before it.
    Behind(Box<FoundStatement>),
    /// Up to this word.
    To(Keyword),
    /// A branch, by its condition.
    Branch {
        condition: Found,
    },
    Else,
    /// The body of a loop or a fork.
    Body {
        line: u64,
        body: Box<Body>,
    },
    /// What is tried.
    Tried {
        line: u64,
    },
    /// What is done finally behind what is tried.
    Finally {
        line: u64,
        tried: Box<Block>,
    },
    /// A handler.
    Arm {
        variable: Option<Text>,
        codes: Box<FoundCodes>,
    },
}

/// Something that goes on behind branches.
#[derive(Drop)]
pub enum BranchesFrame {
    /// An `if`.
    If { line: u64 },
    /// A branch before them.
    Behind { condition: Found, block: Box<Block> },
}

/// Something that goes on behind handlers.
#[derive(Drop)]
pub enum ArmsFrame {
    /// A `try`.
    Try {
        line: u64,
        tried: Box<Block>,
    },
    /// A handler before them.
    Behind {
        variable: Box<Option<Text>>,
        codes: Box<FoundCodes>,
        block: Box<Block>,
    },
}
