//! On which objects slots were asked for.
ghost use Rattle.std.specs.Prelude.{◌≡◌, ℤ, Some, IsTrue};
ghost use Rattle.view.specs.Meanings.{question_of};
ghost use Rattle.speculate.specs.Fresh.{IsAmong, IsCovered};

use view::question::Question;

/// The objects on which slots were asked for, as long as these are few.
#[derive(Drop)]
pub(crate) struct SlotsRead {
    pub(crate) first: Option<i32>,
    pub(crate) second: Option<i32>,
    pub(crate) third: Option<i32>,
    // They are more.
    pub(crate) more: bool,
}

impl SlotsRead {
    /// None.
    pub(crate) fn none() -> SlotsRead {
        SlotsRead {
            first: None,
            second: None,
            third: None,
            more: false,
        }
    }

    /// A question is asked.
    #[inline(always)]
    pub(crate) fn watch(&mut self, question: &Question)
        ensures covered { IsCovered self.new (question_of question.now) }
        ensures stays { (o : ℤ) → IsAmong self.old o → IsAmong self.new o }
    {
        match question {
            Question::Slot(object, _) => self.add(*object),
            _ => {}
        }
    }

    /// One object more, unless it is there.
    #[inline(always)]
    pub(crate) fn add(&mut self, object: i32)
        ensures there { IsAmong self.new object }
        ensures stays { (o : ℤ) → IsAmong self.old o → IsAmong self.new o }
    {
        if is_same(&self.first, object) || is_same(&self.second, object) {
            return;
        }
        self.add_new(object);
    }

    // The same of one that is neither the first nor the second.
    #[inline(never)]
    fn add_new(&mut self, object: i32)
        ensures there { IsAmong self.new object }
        ensures stays { (o : ℤ) → IsAmong self.old o → IsAmong self.new o }
    {
        if self.first.is_none() {
            self.first = Some(object);
        } else if self.second.is_none() {
            self.second = Some(object);
        } else if self.third.is_none() {
            self.third = Some(object);
        } else if !is_same(&self.third, object) {
            self.more = true;
        }
    }
}

// Whether a place has this object.
#[inline(always)]
fn is_same(place: &Option<i32>, object: i32) -> bool
    ensures { IsTrue result → place.now ≡ Some object }
{
    match place {
        Some(other) => *other == object,
        None => false,
    }
}
