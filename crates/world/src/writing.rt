//! Slots that programmers write.
ghost use Rattle.std.specs.Prelude.{◌≡◌, true, false, IfOk, OnErr};
ghost use Rattle.spec_world.specs.Questions.{apply, new_value};
ghost use Rattle.view.specs.Writing.{MayWrite};

use crate::draft::Draft;
use crate::edits::WrittenValue;
use crate::records::revise_record;
use moo_value::text::Text;
use moo_value::value::Value;
use std::alloc::AllocError;

impl Draft {
    /// Gives a slot another value where it lies, for a programmer, and answers whether it did: it does not where there is no such slot, nor where the programmer may not write
    /// it, nor where another draft shares the object.
    #[inline(always)]
    pub(crate) fn write(
        &mut self,
        programmer: i32,
        number: i32,
        name: &Text,
        value: &Value,
    ) -> Result<bool, AllocError>
        ensures done { IfOk result (λ b. b ≡ true → MayWrite programmer number name.now self.old × (self.new ≡ apply (new_value number name.now value.now) self.old)) }
        ensures left { IfOk result (λ b. b ≡ false → self.new ≡ self.old) }
        ensures err { OnErr result (self.new ≡ self.old) }
    {
        let revision = WrittenValue {
            programmer,
            name,
            value,
        };
        let done = revise_record(&mut self.objects, number, &revision)?;
        Ok(done)
    }
}
