//! Properties that are written what an operator gives of the integers that they have.
ghost use Rattle.std.specs.Prelude.{IfOk, OnOk};
ghost use Rattle.moo_value.specs.Operators.{binary_of};
ghost use Rattle.rules.specs.Lines.{AreAgreeing};
ghost use Rattle.rules.specs.Writing.{IsSimplyUpdated};
ghost use Rattle.view.specs.Law.{Goes, Lasts};

use moo_value::operator::BinaryOperator;
use moo_value::text::Text;
use std::alloc::AllocError;
use view::law::View;

/// The integer that a property has becomes what an operator gives of it and another one, by an object's number and a text, for a programmer who owns it or where
/// all may read and write it, if the view has it at hand, it is no built-in one and the operator gives an integer of the two; which one. Else nothing is done.
#[inline(always)]
pub fn update_named<V: View>(
    view: &mut V,
    programmer: i32,
    object: i32,
    name: &Text,
    operator: BinaryOperator,
    second: i32,
) -> Result<Option<i32>, AllocError>
    requires home { V.holds view.old (V.home view.old) }
    requires well_formed { AreAgreeing V.holds V.now view.old }
    ensures lasts { Lasts V.holds V.home V.anchor view.old view.new result }
    ensures left { IfOk result (λ n. Goes V.holds V.now view.old view.new (IsSimplyUpdated programmer object name.now (binary_of operator) second n)) }
    ensures well_formed { OnOk result (AreAgreeing V.holds V.now view.new) }
{
    view.update_at_hand(programmer, object, name, operator, second)
}
