//! Operations of a draft, with names for variables and the numbers of parts for places.
use crate::moo_bytecode::around::Bracketed;
use moo_tree::expression::{Item, Target};
use moo_tree::statement::Statement;
use moo_value::operator::{BinaryOperator, UnaryOperator};
use moo_value::text::Text;
use moo_value::value::Value;

/// The codes that are known before a handler's parts are begun.
#[derive(Clone, Copy)]
pub enum KnownCodes {
    All,
    Empty,
}

/// An operation.
#[derive(Drop)]
pub enum Operation<'a> {
    Push(&'a Value),
    Load(&'a Text),
    LengthOf(Bracketed<'a>),
    Unary(UnaryOperator),
    Binary(BinaryOperator),
    AndThen,
    OrElse,
    Choose,
    Chosen,
    MakeList,
    ReadProperty,
    CallVerb,
    TakeItem,
    TakeRange,
    CaughtValue,
    CallFunction(&'a Text),
    Store(&'a Target),
    Scatter(&'a [Item]),
    /// After the default of the item with this number.
    ScatterOn(&'a [Item], usize),
    StoreDefault(&'a Text),
    Pop,
    Return,
    ReturnZero,
    /// To the end of the construct, without so many held values.
    Finish(usize),
    FinishBody,
    /// Whether it is the first condition, and where to go on if it is true.
    Test(bool, usize),
    /// The same where nothing follows.
    TestLast(bool, usize),
    TestLoop,
    FirstItem(&'a Text),
    NextItem(&'a Text),
    FirstOfRange(&'a Text),
    NextOfRange(&'a Text),
    StartFork(Option<&'a Text>, &'a [Statement]),
    LeaveLoops(usize),
    ContinueLoops(usize),
    EndFinally,
    /// The first part begins, which is next.
    BeginFirst,
    /// So many ticks, operands that stay, and the part that begins.
    Begin(usize, usize, usize),
    /// The same above these codes.
    BeginAbove(usize, usize, usize, Vec<KnownCodes>),
}

/// How a part's value is held.
#[derive(Clone, Copy)]
pub enum Way {
    Beside,
    BeforeList,
    Listed,
    Spliced,
}

/// What is done with an error that is not raised.
#[derive(Clone, Copy)]
pub enum Unraised {
    AsValue,
    Skipped,
    Never,
}

/// How the value of a part is received.
#[derive(Clone, Copy)]
pub enum Reception {
    Straight,
    /// Beside so many held values.
    Received(Way, usize, Unraised),
}

/// What catches a leaving in a part.
#[derive(Drop)]
pub enum Sign<'a> {
    Loop,
    Finally,
    /// Of each handler the variable, if it has one, and the part.
    Handlers(Vec<HandlerRow<'a>>),
    Code,
    Instead(usize),
}

/// A handler's variable, if it has one, and its part.
#[derive(Clone, Copy)]
pub struct HandlerRow<'a> {
    pub variable: Option<&'a Text>,
    pub part: usize,
}

/// What catches, above so many operands, with so many held.
#[derive(Drop)]
pub struct Caught<'a> {
    pub height: usize,
    pub held: usize,
    pub sign: Sign<'a>,
}
