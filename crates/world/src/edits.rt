//! Changes of an object where it lies.
ghost use Rattle.std.specs.Prelude.{◌≡◌, Some};
ghost use Rattle.spec_world.specs.Questions.{put_part};
ghost use Rattle.view.specs.Meanings.{part_of};
ghost use Rattle.view.specs.Writing.{IsRewritten};
ghost use Rattle.world.specs.Revised.{revalued};

use moo_value::text::Text;
use moo_value::value::Value;
use std::alloc::{AllocError, Global};
use view::object::Object;
use view::part::Part;
use world_table::revision::Revision;

/// Another part of an object.
#[derive(Drop)]
pub(crate) struct NewPart<'a> {
    pub(crate) alloc: Global,
    pub(crate) part: &'a Part,
}

impl Revision<Object> for NewPart<'_> {
    ghost makes = { λ n x y. y ≡ put_part (part_of n.part.now) x };

    fn revise(&self, found: &mut Object) -> Result<bool, AllocError> {
        found.put_part(self.alloc, self.part.clone()?)?;
        Ok(true)
    }
}

/// Another value in a slot of an object that has the slot.
#[derive(Drop)]
pub(crate) struct NewValue<'a> {
    pub(crate) name: &'a Text,
    pub(crate) value: &'a Value,
}

impl Revision<Object> for NewValue<'_> {
    ghost makes = { λ n x y. Some y ≡ revalued x n.name.now n.value.now };

    fn revise(&self, found: &mut Object) -> Result<bool, AllocError> {
        let value = self.value.clone()?;
        let done = found.set_value(self.name, value);
        Ok(done)
    }
}

/// Another value in a slot that a programmer may write, of an object that has the slot.
#[derive(Drop)]
pub(crate) struct WrittenValue<'a> {
    pub(crate) programmer: i32,
    pub(crate) name: &'a Text,
    pub(crate) value: &'a Value,
}

impl Revision<Object> for WrittenValue<'_> {
    ghost makes = { λ n x y. IsRewritten n.programmer n.name.now n.value.now x y };

    #[inline(always)]
    fn revise(&self, found: &mut Object) -> Result<bool, AllocError> {
        found.write(self.programmer, self.name, self.value)
    }
}
