//! A view of the world itself.
ghost use Rattle.std.specs.Prelude.{◌≡◌, IfOk, OnOk};
ghost use Rattle.spec_world.specs.Questions.{ask, apply};
ghost use Rattle.view.specs.Meanings.{question_of, answer_of, change_of};
ghost use Rattle.view.specs.Law.{Goes, Keeps};
ghost use Rattle.world.specs.Forks.{start_of, changed_in, borrow_of};

use crate::draft::Draft;
use crate::fork::{Fork, Forked};
use moo_value::text::Text;
use std::alloc::AllocError;
use view::change::Change;
use view::law::View;
use view::question::{Answer, Question};
use view::slot::Slot;
use view::verb::Verbs;

/// A view of the world itself.
pub type Live<'w> = Fork<'w>;

impl<'w> View for Forked<'w, Draft> {
    ghost holds = { λ l w. w ≡ (start_of l).plain };

    ghost now = { λ l _. changed_in l };

    ghost home = { λ l. (start_of l).plain };

    ghost anchor = { λ l. (borrow_of l, (start_of l).opened) };

    fn get(&mut self, question: &Question) -> Result<Answer, AllocError> {
        self.ask(question)
    }

    fn slot(&mut self, object: i32, name: &Text) -> Result<Option<Slot>, AllocError> {
        self.records().own_slot(object, name)
    }

    fn parent(&mut self, object: i32) -> Result<Option<i32>, AllocError> {
        Ok(self.records().parent(object))
    }

    fn verbs(&mut self, object: i32) -> Result<Option<Verbs>, AllocError> {
        self.records().verbs(object).cloned()
    }

    fn put(&mut self, change: Change) -> Result<(), AllocError> {
        Forked::put(self, change)
    }
}
