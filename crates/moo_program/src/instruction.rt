//! Instructions as they run: slots stand for variables, and places for the parts to which they lead.
ghost use Rattle.std.specs.Prelude.{◌≡◌, map, true};
ghost use Rattle.std.proofs.Props.{props};
ghost use Rattle.spec_value.specs.Scatter.{required_count};
ghost use Rattle.moo_program.specs.Counts.{kind_meant, optional_before, are_placed};

use crate::moo_bytecode::operation::{KnownCodes, Unraised, Way};
use moo_value::operator::{BinaryOperator, UnaryOperator};
use moo_value::text::Text;
use moo_value::value::Value;
use std::sync::Arc;

/// An instruction. Where an operand is not an instruction's own it is taken from the stack.
#[derive(Drop)]
pub enum Instruction {
    /// An empty list is put.
    OpenList,
    /// A part's value is received beside so many held values; an error that is not raised leads to the construct's end.
    Receive {
        way: Way,
        unraised: Unraised,
        held: u32,
        end: u32,
    },
    PushInteger(i32),
    Push(Box<Value>),
    Load(u32),
    /// `$` where it is the length of nothing.
    LengthOfNothing,
    /// `$` of the operand with so many below it.
    LengthOfOperand(u32),
    /// `$` of what stands at a target whose values begin above so many operands.
    LengthOfTarget(Box<Shape>, u32),
    Unary(UnaryOperator),
    Binary(BinaryOperator),
    /// To the end, if the operand decides.
    AndThen(u32),
    OrElse(u32),
    /// To the second arm, if the condition is false.
    Choose(u32),
    /// From the first arm to the end.
    Chosen(u32),
    MakeList,
    ReadProperty,
    CallVerb,
    TakeItem,
    TakeRange,
    /// To the end of a caught expression.
    CaughtValue(u32),
    CallFunction(Box<Text>),
    StoreVariable(u32),
    StoreProperty,
    /// An item or a range of what stands at a target.
    StorePart(Box<Shape>),
    Scatter(Arc<Scatter>),
    /// After the default of the item with this number.
    ScatterOn {
        scatter: Arc<Scatter>,
        number: u32,
        end: u32,
    },
    StoreDefault(u32),
    Pop,
    Return,
    ReturnZero,
    /// To the end, without so many held values.
    Finish(u32, u32),
    FinishBody,
    /// Of `if`: whether it is the first condition, the number of its body's part, and where to go on if it is false.
    Test {
        first: bool,
        part: u32,
        otherwise: u32,
    },
    /// The same where nothing follows.
    TestLast {
        first: bool,
        part: u32,
        end: u32,
    },
    /// To the end, if the condition is false.
    TestLoop(u32),
    /// With the variable, and the end.
    FirstItem(u32, u32),
    /// With the variable, and the body.
    NextItem(u32, u32),
    FirstOfRange(u32, u32),
    NextOfRange(u32, u32),
    /// With the variable for the new task, if there is one, and which one of the program's fork bodies it is.
    StartFork(Option<u32>, u32),
    LeaveLoops(u32),
    ContinueLoops(u32),
    EndFinally,
    /// The first part begins, which is next.
    BeginFirst,
    /// With so many ticks, and operands that stay, the part begins that has this number and stands at this place.
    Begin {
        ticks: u8,
        operands: u32,
        part: u32,
        place: u32,
    },
    /// The same above codes.
    BeginAbove(Box<Beginning>),
}

/// The form of what is assigned to.
#[derive(Drop)]
pub struct Shape {
    /// The variable, or none for a property.
    pub variable: Option<u32>,
    /// The brackets behind it, the last ones first.
    pub brackets: Vec<Bracket>,
}

#[derive(Clone, Copy)]
pub enum Bracket {
    Item,
    Range,
}

/// The items of a scattering assignment, and where its defaults stand; shared by its instructions.
#[derive(Drop)]
pub struct Scatter {
    pub items: Vec<Slot>,
    pub defaults: Vec<Part>,
    /// How many items are required.
    pub required: usize,
    /// For each item, how many optional ones stand before it.
    pub before: Vec<u32>,
    pub ghost required_is: { required ≡ required_count (map kind_meant items.items) },
    pub ghost before_is: { before.items ≡ optional_before 0 (map kind_meant items.items) } by { Prim.hlevel props },
    pub ghost placed_is: { are_placed defaults.items ≡ true },
}

/// An item, by its variable.
#[derive(Clone, Copy)]
pub enum Slot {
    Required(u32),
    Optional(u32),
    Rest(u32),
    Default(u32),
}

/// A part that begins above codes: with so many ticks, and operands that stay.
#[derive(Drop)]
pub struct Beginning {
    pub ticks: u8,
    pub operands: u32,
    pub codes: Vec<KnownCodes>,
    pub part: Part,
}

/// A part with its number and its place.
#[derive(Clone, Copy)]
pub struct Part {
    pub number: u32,
    pub place: u32,
}

/// What catches a leaving in the instructions from one place to another.
#[derive(Drop)]
pub struct Handler {
    pub first: u32,
    pub past: u32,
    /// How many operands are below its construct.
    pub height: u32,
    /// How many its construct holds.
    pub held: u32,
    pub catch: Catch,
}

/// How it catches, with the places to which it leads.
#[derive(Drop)]
pub enum Catch {
    /// A loop, with its end.
    Loop(u32),
    /// The second part of `try finally`, with its place.
    Finally(u32),
    /// The handlers of `try except`.
    Arms(Vec<CatchArm>),
    /// The code of a caught error is the value: with the end.
    Code(u32),
    /// A part is.
    Instead(Part),
}

/// A handler of `try except`: its variable, if it has one, and its part.
#[derive(Clone, Copy)]
pub struct CatchArm {
    pub variable: Option<u32>,
    pub part: Part,
}
