//! Lists in lists, however deep, with no call for each that is open.
ghost use Rattle.std.specs.Prelude.{◌≡◌, ◌++◌, OnOk, IfOk};
ghost use Rattle.spec_world.specs.Checkpoint.{list_literal};
ghost use Rattle.checkpoint_text.specs.Nested.{first_to_last, more_to_last, still_to_come, to_come};

use crate::checkpoint_fields::page::Page;
use moo_value::value::Value;
use std::alloc::AllocError;

impl Page {
    /// Writes a list as a program would write it.
    pub(crate) fn put_nested(&mut self, items: &[Value]) -> Result<(), AllocError>
        ensures { OnOk result (self.new ≡ self.old ++ list_literal items.now) }
    {
        // What is left of the lists that are open, the innermost last.
        let mut begun = Vec::new(self.alloc);
        let mut next = self.open_list(&mut begun, items)?;
        for _ in 0..u64::MAX {
            next = match next {
                Some(value) => self.put_next(&mut begun, value)?,
                None => match begun.pop() {
                    Some(rest) => self.go_on(&mut begun, rest)?,
                    None => return Ok(()),
                },
            };
        }
        Err(AllocError)
    }

    // Writes the next value, or begins it if it is a list. Gives the value that comes next, if one does in the innermost list.
    fn put_next<'v>(
        &mut self,
        begun: &mut Vec<&'v [Value]>,
        value: &'v Value,
    ) -> Result<Option<&'v Value>, AllocError>
        ensures { IfOk result (λ o. self.new ++ still_to_come o begun.new.items ≡ self.old ++ to_come value.now begun.old.items) }
    {
        let items = self.put_unless_list(value)?;
        match items {
            Some(items) => self.open_list(begun, items),
            None => Ok(None),
        }
    }

    // Begins a list.
    fn open_list<'v>(
        &mut self,
        begun: &mut Vec<&'v [Value]>,
        items: &'v [Value],
    ) -> Result<Option<&'v Value>, AllocError>
        ensures { IfOk result (λ o. self.new ++ still_to_come o begun.new.items ≡ self.old ++ first_to_last items.now begun.old.items) }
    {
        self.put("{")?;
        match items.split_first() {
            Some((first, rest)) => {
                begun.push(rest)?;
                Ok(Some(first))
            }
            None => {
                self.put("}")?;
                Ok(None)
            }
        }
    }

    // Goes on behind an item of a list, of which this is left.
    fn go_on<'v>(
        &mut self,
        begun: &mut Vec<&'v [Value]>,
        rest: &'v [Value],
    ) -> Result<Option<&'v Value>, AllocError>
        ensures { IfOk result (λ o. self.new ++ still_to_come o begun.new.items ≡ self.old ++ more_to_last rest.now begun.old.items) }
    {
        match rest.split_first() {
            Some((next, rest)) => {
                self.put(", ")?;
                begun.push(rest)?;
                Ok(Some(next))
            }
            None => {
                self.put("}")?;
                Ok(None)
            }
        }
    }
}
