//! What stands around a construct.
ghost use Rattle.std.specs.Prelude.{◌≡◌, ◌+◌, suc, map, IfOk};
ghost use Rattle.moo_program.specs.Drafting.{around_of, bracketed_of, name_of};
ghost use Rattle.moo_code.specs.Layout.{above as above_of, in_brackets as in_brackets_of};

use moo_tree::expression::Target;
use moo_value::text::Text;
use std::alloc::AllocError;

/// What `$` is the length of.
#[derive(Clone, Copy)]
pub enum Bracketed<'a> {
    Nothing,
    /// The operand with so many below it.
    Operand(usize),
    /// What stands at a target whose values begin there.
    Target(&'a Target, usize),
}

/// What stands around a construct: so many operands, the brackets whose `$` it can ask for, and its loops, the innermost first.
#[derive(Clone, Copy)]
pub struct Around<'a, 'l> {
    pub height: usize,
    pub bracketed: Bracketed<'a>,
    pub loops: &'l [Option<&'a Text>],
}

impl<'a, 'l> Around<'a, 'l> {
    /// With so many more operands below.
    pub fn above(self, count: usize) -> Result<Around<'a, 'l>, AllocError>
        ensures { IfOk result (λ a. around_of a ≡ above_of (around_of self.entry) count) }
    {
        let height = plus(self.height, count)?;
        Ok(Around { height, ..self })
    }

    /// The same in brackets, with what `$` is the length of there.
    pub fn in_brackets(
        self,
        count: usize,
        bracketed: Bracketed<'a>,
    ) -> Result<Around<'a, 'l>, AllocError>
        ensures { IfOk result (λ a. around_of a ≡ in_brackets_of (around_of self.entry) count (bracketed_of bracketed.entry)) }
    {
        let height = plus(self.height, count)?;
        Ok(Around {
            height,
            bracketed,
            ..self
        })
    }

    /// The same in a loop's body, with the loops there.
    pub fn in_body<'m>(
        self,
        count: usize,
        loops: &'m [Option<&'a Text>],
    ) -> Result<Around<'a, 'm>, AllocError>
        ensures { IfOk result (λ a. around_of a ≡ record { height = self.entry.height + count; bracketed = bracketed_of self.entry.bracketed; loops = map name_of loops.now }) }
    {
        let height = plus(self.height, count)?;
        Ok(Around {
            height,
            bracketed: self.bracketed,
            loops,
        })
    }
}

/// A sum, if it is within the numbers of a machine.
pub fn plus(a: usize, b: usize) -> Result<usize, AllocError>
    ensures { IfOk result (λ n. n ≡ a + b) }
{
    a.checked_add(b).ok_or(AllocError)
}

/// The next number, if it is within those of a machine.
pub fn next(a: usize) -> Result<usize, AllocError>
    ensures { IfOk result (λ n. n ≡ suc a) }
{
    a.checked_add(1).ok_or(AllocError)
}
