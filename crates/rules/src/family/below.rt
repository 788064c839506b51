//! The objects below one, from parents to children.
ghost use Rattle.std.specs.Prelude.{◌≡◌, ◌<◌, ◌++◌, pos, length, get_or, is_some, IfOk, OnOk, IsTrue};
ghost use Rattle.spec_world.specs.World.{World, object_at};
ghost use Rattle.spec_world.specs.Questions.{children_at};
ghost use Rattle.view.specs.Law.{Lasts, Tells};
ghost use Rattle.rules.specs.Lines.{AreAgreeing};
ghost use Rattle.rules.specs.Below.{IsFamily, among};

use std::alloc::{AllocError, Global};
use view::law::View;
use view::readers::{read_children, read_header};

// One more than there can be objects, which have numbers from 0 to 999,999.
const MOST_ROUNDS: usize = 1_000_001;

/// An object and all that are below it, each behind its parent: none where it is not there. `Err(AllocError)` after more than a
/// million, which no world has.
pub fn below<V: View>(alloc: Global, view: &mut V, object: i32) -> Result<Vec<i32>, AllocError>
    requires home { V.holds view.old (V.home view.old) }
    requires well_formed { AreAgreeing V.holds V.now view.old }
    ensures lasts { Lasts V.holds V.home V.anchor view.old view.new result }
    ensures left { IfOk result (λ ds. Tells V.holds V.now view.old view.new (λ w. IsFamily w object ds.items)) }
{
    let header = read_header(view, object)?;
    if header.is_none() {
        let nobody = Vec::new(alloc);
        return Ok(nobody);
    }
    walk(alloc, view, object)
}

// Of an object that is there.
fn walk<V: View>(alloc: Global, view: &mut V, object: i32) -> Result<Vec<i32>, AllocError>
    requires home { V.holds view.old (V.home view.old) }
    requires well_formed { AreAgreeing V.holds V.now view.old }
    requires there { (w : World) → V.holds view.old w → IsTrue (is_some (object_at (V.now view.old w) object)) }
    ensures lasts { Lasts V.holds V.home V.anchor view.old view.new result }
    ensures left { IfOk result (λ ds. Tells V.holds V.now view.old view.new (λ w. IsFamily w object ds.items)) }
{
    let mut family = Vec::new(alloc);
    family.push(object)?;
    for done in 0..MOST_ROUNDS {
        let count = family.len();
        if done >= count {
            return Ok(family);
        }
        add_children(view, &mut family, done)?;
    }
    Err(AllocError)
}

// The children of the one in a place are put behind all.
fn add_children<V: View>(
    view: &mut V,
    family: &mut Vec<i32>,
    place: usize,
) -> Result<(), AllocError>
    requires { place < length family.old.items }
    ensures lasts { Lasts V.holds V.home V.anchor view.old view.new result }
    ensures left { OnOk result (Tells V.holds V.now view.old view.new
        (λ w. family.new.items ≡ family.old.items ++ among (children_at w (get_or family.old.items place (pos 0))))) }
{
    let object = family[place];
    let children = read_children(view, object)?;
    if let Some(children) = children {
        push_all(family, children.as_slice())?;
    }
    Ok(())
}

fn push_all(family: &mut Vec<i32>, more: &[i32]) -> Result<(), AllocError>
    ensures { OnOk result (family.new.items ≡ family.old.items ++ more.now) }
{
    for object in more {
        family.push(*object)?;
    }
    Ok(())
}
