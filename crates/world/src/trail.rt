//! What was asked, as clauses see it.
ghost use Rattle.std.specs.Prelude.{◌≡◌, [], ◌∷◌, ◌++◌};
ghost use Rattle.world.specs.Sought.{sought_of};

use crate::questions::Sought;
use moo_value::text::Text;
use std::marker::Model;
use std::snapshot::Snapshot as Remembered;
use view::question::Question;

/// The questions that were asked, in their order. Only clauses read them: the program keeps nothing of them.
#[cycle(trail)]
pub(crate) struct Trail {
    last: Last,
}

// Written out, so that letting go of the last question is proved here and not where a trail is let go.
impl Drop for Trail {
    fn drop(self) {
        let Trail { last: _last } = self;
    }
}

// The last question, behind those before it.
#[cycle(trail)]
#[derive(Drop)]
enum Last {
    Nothing,
    Question(Remembered<Trail>, Remembered<Question>),
    Slot(Remembered<Trail>, Remembered<i32>, Remembered<Text>),
    Header(Remembered<Trail>, Remembered<i32>),
    Verbs(Remembered<Trail>, Remembered<i32>),
}

impl Model for Trail {
    ghost use Rattle.std.specs.Prelude.{List, length};
    ghost use Rattle.std.specs.Coded.{coded_list};
    ghost use Rattle.spec_world.specs.Questions.{Question as Asked};
    ghost use Rattle.view.specs.QuestionCode.{question_code};

    ghost Value = { List Asked };

    ghost coded = { coded_list question_code };

    ghost size = { length };

    ghost use Rattle.world.specs.Trails.{trail_of};

    ghost view = { λ a. trail_of a.last };

    ghost use Rattle.world.specs.TrailFalls.{trail_falls};

    ghost size_decreases = { λ a h. trail_falls a.last };
}

impl Trail {
    /// Nothing asked.
    #[inline(always)]
    pub(crate) fn new() -> Trail
        ensures { result ≡ [] }
    {
        Trail {
            last: Last::Nothing,
        }
    }

    /// One question more.
    #[inline(always)]
    pub(crate) fn add(&mut self, sought: &Sought<'_>)
        ensures { self.new ≡ self.old ++ sought_of sought.now ∷ [] }
    {
        let before = Remembered::of(&*self);
        self.last = match sought {
            Sought::Question(question) => Last::Question(before, Remembered::of(*question)),
            Sought::Slot(object, name) => {
                Last::Slot(before, Remembered::of(object), Remembered::of(*name))
            }
            Sought::Header(object) => Last::Header(before, Remembered::of(object)),
            Sought::Verbs(object) => Last::Verbs(before, Remembered::of(object)),
        };
    }
}
