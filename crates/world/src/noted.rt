//! Questions that were asked.
ghost use Rattle.std.specs.Prelude.{◌≡◌, None, IsFalse};
ghost use Rattle.view.specs.Meanings.{question_of};
ghost use Rattle.world.specs.Listed.{is_listed};

use view::question::{Answer, Question};

/// A question that was asked. Its answer is the snapshot's; one that is put together of many records is kept.
#[derive(Drop)]
pub(crate) struct Noted {
    pub(crate) question: Question,
    pub(crate) answer: Option<Box<Answer>>,
    ghost whole: { answer ≡ None → IsFalse (is_listed (question_of question)) },
}
