//! Which codes a handler takes.
ghost use Rattle.std.specs.Prelude.{◌≡◌};
ghost use Rattle.spec_value.specs.Datum.{same as same_of, of_list};
ghost use Rattle.spec_moo.specs.Leaving.{among, takes_code as takes_code_of};

use moo_value::compare::equal;
use moo_value::value::{Shown, Value};

#[tactic(auto, using(moo_value::proofs::Sameness::equal_is))]
fn is_equal(left: &Value, right: &Value) -> bool
    ensures { result ≡ same_of left.now right.now }
{
    equal(left, right)
}

/// Whether codes that a handler holds take a code: 0 for all of them, or their list.
pub fn takes_code(codes: &Value, code: &Value) -> bool
    ensures { result ≡ takes_code_of codes.now code.now }
{
    let Shown::List(items) = codes.shown() else {
        return true;
    };
    is_among(items, code)
}

fn is_among(items: &[Value], code: &Value) -> bool
    ensures { result ≡ among code.now (of_list items.now) }
{
    for item in items {
        if is_equal(item, code) {
            return true;
        }
    }
    false
}
