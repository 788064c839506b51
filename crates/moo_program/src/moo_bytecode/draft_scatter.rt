//! Drafts of scattering assignments. What comes last is put first.
ghost use Rattle.std.specs.Prelude.{◌≡◌, ◌∷◌, [], OnOk};
ghost use Rattle.spec_program.specs.Construct.{of_default};
ghost use Rattle.spec_program.specs.Tree.{scatter as scatter_tree};
ghost use Rattle.moo_tree.specs.ExpressionView.{items_of};
ghost use Rattle.moo_code.specs.Layout.{stop, inner, plain, expr_layout, default_layout, default_parts, items_layout, slots_of};
ghost use Rattle.moo_program.specs.Drafting.{around_of, state, over};

use crate::moo_bytecode::around::{Around, next};
use crate::moo_bytecode::draft::Draft;
use crate::moo_bytecode::operation::{Operation, Reception};
use moo_tree::expression::{Expression, Item};
use moo_value::text::Text;
use std::alloc::AllocError;

impl<'a> Draft<'a> {
    // The default of a variable, as a part.
    #[cycle(expression)]
    fn default_part(
        &mut self,
        around: Around<'a, '_>,
        variable: &'a Text,
        value: &'a Expression,
    ) -> Result<(), AllocError>
        ensures { OnOk result (state self.new ≡ over (inner (plain (of_default variable.now value.now)) (default_layout (around_of around.entry) variable.now value.now) stop) (state self.old)) }
    {
        self.close(Reception::Straight, None)?;
        let mark = self.mark();
        self.own(Operation::StoreDefault(variable))?;
        let inside = around.above(0)?;
        self.operand(inside, value)?;
        self.open(false, mark)?;
        Ok(())
    }

    // The part of an item with a number, among these: its default, or none.
    #[cycle(expression)]
    fn item(
        &mut self,
        around: Around<'a, '_>,
        items: &'a [Item],
        number: usize,
        item: &'a Item,
    ) -> Result<(), AllocError>
        ensures { OnOk result (state self.new ≡ over (items_layout (around_of around.entry) (slots_of (items_of items.now)) (default_parts 1 (items_of items.now)) number (items_of (item.now ∷ [])) stop) (state self.old)) }
    {
        match item {
            Item::Required(_) | Item::Optional(_) | Item::Rest(_) => self.gap(),
            Item::Default(variable, value) => {
                self.own(Operation::ScatterOn(items, number))?;
                self.default_part(around, variable, value)
            }
        }
    }

    // The parts of the items.
    #[cycle(expression)]
    fn items(&mut self, around: Around<'a, '_>, items: &'a [Item]) -> Result<(), AllocError>
        ensures { OnOk result (state self.new ≡ over (items_layout (around_of around.entry) (slots_of (items_of items.now)) (default_parts 1 (items_of items.now)) 1 (items_of items.now) stop) (state self.old)) }
    {
        for i in (0..items.len()).rev() {
            let number = next(i)?;
            self.item(around, items, number, &items[i])?;
        }
        Ok(())
    }

    /// A list's items into variables.
    #[tactic(auto, using(crate::proofs::ScatterRows::items_over, crate::proofs::ScatterRows::items_counted))]
    #[cycle(expression)]
    pub(crate) fn scatter(
        &mut self,
        around: Around<'a, '_>,
        items: &'a [Item],
        value: &'a Expression,
    ) -> Result<(), AllocError>
        ensures { OnOk result (state self.new ≡ over (expr_layout (around_of around.entry) (scatter_tree (items_of items.now) value.now)) (state self.old)) }
    {
        let part = next(items.len())?;
        self.own(Operation::Scatter(items))?;
        self.operand(around.above(0)?, value)?;
        self.items(around.above(1)?, items)?;
        self.own(Operation::Begin(0, 0, part))?;
        Ok(())
    }
}
