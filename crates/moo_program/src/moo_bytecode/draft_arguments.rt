//! Drafts of lists and calls. What comes last is put first.
ghost use Rattle.std.specs.Prelude.{◌≡◌, ◌∷◌, [], OnOk};
ghost use Rattle.spec_program.specs.Tree.{verb_call};
ghost use Rattle.moo_tree.specs.ExpressionView.{arguments_of};
ghost use Rattle.moo_code.specs.Instruction.{as_value};
ghost use Rattle.moo_code.specs.Layout.{stop, own, above, expr_layout, arguments_layout};
ghost use Rattle.moo_program.specs.Drafting.{around_of, operation_of, parts_of, unraised_of, state, over};

use crate::moo_bytecode::around::Around;
use crate::moo_bytecode::draft::Draft;
use crate::moo_bytecode::operation::{Operation, Reception, Unraised, Way};
use moo_tree::expression::{Argument, Expression};
use std::alloc::AllocError;

impl<'a> Draft<'a> {
    /// An argument into the last of so many held values.
    #[cycle(expression)]
    pub(crate) fn argument(
        &mut self,
        around: Around<'a, '_>,
        held: usize,
        unraised: Unraised,
        argument: &'a Argument,
    ) -> Result<(), AllocError>
        ensures { OnOk result (state self.new ≡ over (arguments_layout (around_of around.entry) held (unraised_of unraised) (arguments_of (argument.now ∷ [])) stop) (state self.old)) }
    {
        match argument {
            Argument::Value(value) => {
                let reception = Reception::Received(Way::Listed, held, unraised);
                self.part(around, value, reception, None)
            }
            Argument::Splice(value) => {
                let reception = Reception::Received(Way::Spliced, held, unraised);
                self.part(around, value, reception, None)
            }
        }
    }

    /// Arguments, each into the last of so many held values.
    #[tactic(auto, using(crate::proofs::ArgumentRows::argument_next))]
    #[cycle(expression)]
    pub(crate) fn arguments(
        &mut self,
        around: Around<'a, '_>,
        held: usize,
        unraised: Unraised,
        arguments: &'a [Argument],
    ) -> Result<(), AllocError>
        ensures { OnOk result (state self.new ≡ over (arguments_layout (around_of around.entry) held (unraised_of unraised) (arguments_of arguments.now) stop) (state self.old)) }
    {
        for i in (0..arguments.len()).rev() {
            self.argument(around, held, unraised, &arguments[i])?;
        }
        Ok(())
    }

    /// Arguments in a list, and the operation that takes it.
    #[tactic(auto, using(crate::proofs::ArgumentRows::arguments_over))]
    #[cycle(expression)]
    pub(crate) fn argument_list(
        &mut self,
        around: Around<'a, '_>,
        operation: Operation<'a>,
        arguments: &'a [Argument],
    ) -> Result<(), AllocError>
        ensures { OnOk result (state self.new ≡ over (arguments_layout (above (around_of around.entry) 1) 1 as_value (arguments_of arguments.now) (own (operation_of operation.entry) (parts_of operation.entry) stop)) (state self.old)) }
    {
        self.own(operation)?;
        self.arguments(around.above(1)?, 1, Unraised::AsValue, arguments)
    }

    /// A call of a verb.
    #[tactic(auto, using(crate::proofs::ArgumentRows::arguments_over))]
    #[cycle(expression)]
    pub(crate) fn verb_call(
        &mut self,
        around: Around<'a, '_>,
        object: &'a Expression,
        name: &'a Expression,
        arguments: &'a [Argument],
    ) -> Result<(), AllocError>
        ensures { OnOk result (state self.new ≡ over (expr_layout (around_of around.entry) (verb_call object.now name.now (arguments_of arguments.now))) (state self.old)) }
    {
        let named = Reception::Received(Way::BeforeList, 1, Unraised::AsValue);
        self.own(Operation::CallVerb)?;
        self.arguments(around.above(3)?, 3, Unraised::AsValue, arguments)?;
        self.part(around.above(1)?, name, named, None)?;
        self.operand(around.above(0)?, object)
    }
}
