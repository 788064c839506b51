//! Objects that go (Programmer's Manual, `recycle()`).
ghost use Rattle.std.specs.Prelude.{◌≡◌, OnOk};
ghost use Rattle.spec_world.specs.World.{World, object_at};
ghost use Rattle.spec_world.specs.Families.{parent_of, recycled, reparented, reparented_each, to_nowhere};
ghost use Rattle.spec_world.proofs.WorldsKept.{IsNobodys};
ghost use Rattle.rules.specs.Lines.{AreAgreeing};
ghost use Rattle.view.specs.Law.{Goes, Lasts};
ghost use Rattle.builtins.specs.Going.{forgotten, HasChildren};

use builtins_view::reparenting::reparent::reparent;
use rules::family::below::below;
use rules::relatives::children::lose_child;
use rules::relatives::contents::{out_of_place, put_location};
use std::alloc::{AllocError, Global};
use view::law::View;
use view::readers::{read_children, read_contents, read_header, write_object};

/// An object goes, if it is there: its children go to its parent, and its contents to no place.
pub fn recycle_object<V: View>(alloc: Global, view: &mut V, object: i32) -> Result<(), AllocError>
    requires home { V.holds view.old (V.home view.old) }
    requires well_formed { AreAgreeing V.holds V.now view.old }
    ensures lasts { Lasts V.holds V.home V.anchor view.old view.new result }
    ensures left { OnOk result (Goes V.holds V.now view.old view.new (λ was is. is ≡ recycled was object)) }
    ensures well_formed { ((w : World) → V.holds view.old w → IsNobodys (V.now view.old w) object) → OnOk result (AreAgreeing V.holds V.now view.new) }
{
    let_go(alloc, view, object)
}

fn let_go<V: View>(alloc: Global, view: &mut V, object: i32) -> Result<(), AllocError>
    requires home { V.holds view.old (V.home view.old) }
    requires well_formed { AreAgreeing V.holds V.now view.old }
    ensures lasts { Lasts V.holds V.home V.anchor view.old view.new result }
    ensures left { OnOk result (Goes V.holds V.now view.old view.new (λ was is. is ≡ recycled was object)) }
{
    let header = read_header(view, object)?;
    let Some(header) = header else {
        return Ok(());
    };
    let children = read_children(view, object)?;
    let Some(children) = children else {
        return Ok(());
    };
    let contents = read_contents(view, object)?;
    let Some(contents) = contents else {
        return Ok(());
    };
    raise_children(alloc, view, object, header.parent, children.as_slice())?;
    put_out(view, contents.as_slice())?;
    forget(alloc, view, object, header.parent, header.location)
}

// The children of an object go to its parent.
fn raise_children<V: View>(
    alloc: Global,
    view: &mut V,
    object: i32,
    parent: i32,
    children: &[i32],
) -> Result<(), AllocError>
    requires home { V.holds view.old (V.home view.old) }
    requires well_formed { AreAgreeing V.holds V.now view.old }
    requires known { (w : World) → V.holds view.old w → HasChildren (V.now view.old w) object parent children.now }
    ensures lasts { Lasts V.holds V.home V.anchor view.old view.new result }
    ensures left { OnOk result (Goes V.holds V.now view.old view.new (λ was is. is ≡ reparented_each was children.now parent)) }
{
    for child in children {
        raise_child(alloc, view, object, *child, parent)?;
    }
    Ok(())
}

// A child of an object goes to that one's parent.
fn raise_child<V: View>(
    alloc: Global,
    view: &mut V,
    object: i32,
    child: i32,
    parent: i32,
) -> Result<(), AllocError>
    requires home { V.holds view.old (V.home view.old) }
    requires well_formed { AreAgreeing V.holds V.now view.old }
    ensures lasts { Lasts V.holds V.home V.anchor view.old view.new result }
    ensures left { OnOk result (Goes V.holds V.now view.old view.new (λ was is.
        parent_of (object_at was child) ≡ object → is ≡ reparented was child parent)) }
{
    let family = below(alloc, view, child)?;
    reparent(alloc, view, child, family.as_slice(), object, parent)
}

// These objects are in no place.
fn put_out<V: View>(view: &mut V, contents: &[i32]) -> Result<(), AllocError>
    requires home { V.holds view.old (V.home view.old) }
    ensures lasts { Lasts V.holds V.home V.anchor view.old view.new result }
    ensures left { OnOk result (Goes V.holds V.now view.old view.new (λ was is. is ≡ to_nowhere was contents.now)) }
{
    for object in contents {
        put_location(view, *object, -1)?;
    }
    Ok(())
}

// Its parent and its place know an object no more, and it is gone.
fn forget<V: View>(
    alloc: Global,
    view: &mut V,
    object: i32,
    parent: i32,
    place: i32,
) -> Result<(), AllocError>
    ensures lasts { Lasts V.holds V.home V.anchor view.old view.new result }
    ensures left { OnOk result (Goes V.holds V.now view.old view.new (λ was is. is ≡ forgotten was object parent place)) }
{
    lose_child(alloc, view, parent, object)?;
    out_of_place(alloc, view, place, object)?;
    write_object(view, object, None)
}
