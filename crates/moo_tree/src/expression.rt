//! Expressions.
use moo_value::operator::{BinaryOperator, UnaryOperator};
use moo_value::text::Text;
use moo_value::value::Value;
use std::marker::Model;

/// An expression.
#[cycle(expression)]
#[derive(Drop)]
pub struct Expression {
    pub node: ExpressionNode,
}

/// What an expression is.
#[cycle(expression)]
#[derive(Drop)]
pub enum ExpressionNode {
    /// A literal value, or a name that is written plainly after a `.` or a `:`.
    Literal(Value),
    /// A variable, by its name in lower case.
    Variable(Text),
    /// `$` in brackets: the length of what is indexed.
    OwnLength,
    /// An operator with its operand.
    Unary(UnaryOperator, Box<Expression>),
    /// An operator with its left and right operands.
    Binary(BinaryOperator, Box<Expression>, Box<Expression>),
    /// `a && b`.
    Both(Box<Expression>, Box<Expression>),
    /// `a || b`.
    Either(Box<Expression>, Box<Expression>),
    /// `c ? a | b`: the condition, the value where it is true, and the other one.
    Conditional(Box<Expression>, Box<Expression>, Box<Expression>),
    /// A list of these items: `{a, @b}`.
    List(Vec<Argument>),
    /// A call of a built-in function, by its name in lower case.
    Call(Text, Vec<Argument>),
    /// A property read: the object and the name.
    Property(Box<Expression>, Box<Expression>),
    /// A verb call: the object, the name and the arguments.
    VerbCall(Box<Expression>, Box<Expression>, Vec<Argument>),
    /// An item: the list or text, and the index.
    Index(Box<Expression>, Box<Expression>),
    /// A part: the list or text, the first index and the last one.
    Range(Box<Expression>, Box<Expression>, Box<Expression>),
    /// An expression whose errors of these codes are caught, and what stands in their place.
    Catch(Box<Expression>, Codes, Fallback),
    /// An assignment: where to, and the value.
    Assignment(Target, Box<Expression>),
    /// An assignment of a list's items: `{a, ?b = 1, @c} = x`.
    Scatter(Vec<Item>, Box<Expression>),
}

/// An argument of a call, an item of a list, or a code of a handler.
#[cycle(expression)]
#[derive(Drop)]
pub enum Argument {
    /// A value.
    Value(Expression),
    /// `@e`: a list that stands for its items.
    Splice(Expression),
}

/// The error codes that a handler takes.
#[cycle(expression)]
#[derive(Drop)]
pub enum Codes {
    /// Every one: `ANY`.
    Any,
    /// These.
    Listed(Vec<Argument>),
}

/// What stands in the place of an expression whose error was caught.
#[cycle(expression)]
#[derive(Drop)]
pub enum Fallback {
    /// The error's code.
    TheCode,
    /// The value of another expression.
    Instead(Box<Expression>),
}

/// What is assigned to.
#[cycle(expression)]
#[derive(Drop)]
pub struct Target {
    pub node: TargetNode,
}

/// What a target is.
#[cycle(expression)]
#[derive(Drop)]
pub enum TargetNode {
    /// A variable, by its name in lower case.
    Variable(Text),
    /// A property: the object and the name.
    Property(Box<Expression>, Box<Expression>),
    /// An item of what a target holds, by its index.
    Index(Box<Target>, Box<Expression>),
    /// A part of what a target holds, by its first and last index.
    Range(Box<Target>, Box<Expression>, Box<Expression>),
}

/// An item on the left side of a scatter, by its variable's name in lower case.
#[cycle(expression)]
#[derive(Drop)]
pub enum Item {
    /// A variable that must get a value.
    Required(Text),
    /// `?x`: a variable that keeps its value where the list has none for it.
    Optional(Text),
    /// `@x`: the variable that gets the list of what is left.
    Rest(Text),
    /// `?x = e`: a variable with its value where the list has none for it.
    Default(Text, Expression),
}

impl Model for Expression {
    ghost use Rattle.spec_program.specs.Tree.{Expr};
    ghost use Rattle.spec_program.specs.TreeCode.{expr_code};
    ghost use Rattle.moo_tree.specs.Depth.{expr_depth};

    ghost Value = { Expr };

    ghost coded = { expr_code };

    ghost use Rattle.moo_tree.specs.ExpressionView.{node_expr};

    ghost view = { λ a. node_expr a.node };

    ghost size = { expr_depth };

    ghost use Rattle.moo_tree.specs.ExpressionFalls.{expr_falls};

    ghost size_decreases = { λ a h. expr_falls a.node };
}

impl Model for Target {
    ghost use Rattle.spec_program.specs.Tree.{Target as Meant};
    ghost use Rattle.spec_program.specs.TreeCode.{target_code};
    ghost use Rattle.moo_tree.specs.Depth.{target_depth};

    ghost Value = { Meant };

    ghost coded = { target_code };

    ghost use Rattle.moo_tree.specs.ExpressionView.{node_target};

    ghost view = { λ a. node_target a.node };

    ghost size = { target_depth };

    ghost use Rattle.moo_tree.specs.ExpressionFalls.{target_falls};

    ghost size_decreases = { λ a h. target_falls a.node };
}
