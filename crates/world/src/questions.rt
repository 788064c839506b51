//! Questions, compared and told apart.
ghost use Rattle.std.specs.Prelude.{◌≡◌, ◌↔◌, IsTrue, IfOk};
ghost use Rattle.spec_world.specs.Questions.{about_slot};
ghost use Rattle.view.specs.Meanings.{question_of};
ghost use Rattle.world.specs.Listed.{is_listed as is_listed_question};
ghost use Rattle.world.specs.Sought.{sought_of};

use moo_value::text::Text;
use std::alloc::AllocError;
use view::question::Question;

// How many characters of a name its question's mark is made of.
const COUNTED: usize = 32;

// What spreads numbers over all bits.
const SPREAD: u64 = 0x9E37_79B9_7F4A_7C15;

/// What is looked for among the questions that were asked.
#[derive(Clone, Copy)]
pub(crate) enum Sought<'q> {
    /// This question.
    Question(&'q Question),
    /// The one for the slot of a property on an object.
    Slot(i32, &'q Text),
    /// The one for an object's header.
    Header(i32),
    /// The one for an object's verbs.
    Verbs(i32),
}

impl<'q> Sought<'q> {
    /// Its mark, as a question's. Nothing is proved by it.
    #[inline(always)]
    pub(crate) fn mark(&self) -> u64 {
        match self {
            Sought::Question(question) => mark_of(question),
            Sought::Slot(object, name) => slot_mark(*object, name),
            Sought::Header(object) => marked(0, *object),
            Sought::Verbs(object) => marked(5, *object),
        }
    }

    /// Whether it is this question.
    #[inline(always)]
    pub(crate) fn is(&self, question: &Question) -> bool
        ensures { IsTrue result ↔ sought_of self.now ≡ question_of question.now }
    {
        match self {
            Sought::Question(sought) => same_question(sought, question),
            Sought::Slot(object, name) => is_slot(*object, name, question),
            Sought::Header(object) => {
                matches!(question, Question::Header(other) if *object == *other)
            }
            Sought::Verbs(object) => {
                matches!(question, Question::Verbs(other) if *object == *other)
            }
        }
    }

    /// The question itself.
    #[inline(always)]
    pub(crate) fn question(&self) -> Result<Question, AllocError>
        ensures { IfOk result (λ q. question_of q ≡ sought_of self.now) }
    {
        match self {
            Sought::Question(question) => Question::clone(question),
            Sought::Slot(object, name) => Ok(Question::Slot(*object, Text::clone(name)?)),
            Sought::Header(object) => Ok(Question::Header(*object)),
            Sought::Verbs(object) => Ok(Question::Verbs(*object)),
        }
    }
}

/// Whether the answer to a question is put together of many records.
pub(crate) fn is_listed(question: &Question) -> bool
    ensures { result ≡ is_listed_question (question_of question.now) }
{
    matches!(
        question,
        Question::Waiting | Question::Readers(_) | Question::Connections(_) | Question::Connected
    )
}

// The mark of the question for a slot.
fn slot_mark(object: i32, name: &Text) -> u64 {
    named(marked(4, object), name)
}

/// Whether two questions are the same, the case of letters in names counted. It takes no memory.
pub(crate) fn same_question(a: &Question, b: &Question) -> bool
    ensures { IsTrue result ↔ question_of a.now ≡ question_of b.now }
{
    match a {
        Question::Header(object) => matches!(b, Question::Header(other) if *object == *other),
        Question::Children(object) => matches!(b, Question::Children(other) if *object == *other),
        Question::Contents(object) => matches!(b, Question::Contents(other) if *object == *other),
        Question::Defines(object) => matches!(b, Question::Defines(other) if *object == *other),
        Question::Slot(object, name) => is_slot(*object, name, b),
        Question::Verbs(object) => matches!(b, Question::Verbs(other) if *object == *other),
        Question::Task(id) => matches!(b, Question::Task(other) if *id == *other),
        Question::Waiting => matches!(b, Question::Waiting),
        Question::Link(number) => matches!(b, Question::Link(other) if *number == *other),
        Question::Readers(connection) =>
            matches!(b, Question::Readers(other) if *connection == *other),
        Question::Connections(person) =>
            matches!(b, Question::Connections(other) if *person == *other),
        Question::Connected => matches!(b, Question::Connected),
        Question::Greatest => matches!(b, Question::Greatest),
        Question::Ending => matches!(b, Question::Ending),
    }
}

// Whether a question is about this slot.
fn is_slot(object: i32, name: &Text, question: &Question) -> bool
    ensures { IsTrue result ↔ about_slot object name.now ≡ question_of question.now }
{
    match question {
        Question::Slot(other, other_name) => {
            object == *other && name.as_str() == other_name.as_str()
        }
        _ => false,
    }
}

/// A number for a question, mostly another one for another question. Nothing is proved by it.
pub(crate) fn mark_of(question: &Question) -> u64 {
    match question {
        Question::Header(object) => marked(0, *object),
        Question::Children(object) => marked(1, *object),
        Question::Contents(object) => marked(2, *object),
        Question::Defines(object) => marked(3, *object),
        Question::Slot(object, name) => slot_mark(*object, name),
        Question::Verbs(object) => marked(5, *object),
        Question::Task(id) => marked(6, *id),
        Question::Waiting => marked(7, 0),
        Question::Link(number) => marked(8, *number),
        Question::Readers(connection) => marked(9, *connection),
        Question::Connections(person) => marked(10, *person),
        Question::Connected => marked(11, 0),
        Question::Greatest => marked(12, 0),
        Question::Ending => marked(13, 0),
    }
}

fn marked(kind: u64, number: i32) -> u64 {
    ((u64::from(number.unsigned_abs()) * 16) ^ kind).wrapping_mul(SPREAD)
}

fn named(mark: u64, name: &Text) -> u64 {
    let mut mark = mark;
    for byte in name.as_str().as_bytes().iter().take(COUNTED) {
        mark = (mark ^ u64::from(*byte)).wrapping_mul(SPREAD);
    }
    mark
}
