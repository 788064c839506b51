//! Children and their parents.
ghost use Rattle.std.specs.Prelude.{◌≡◌, IfOk, OnOk};
ghost use Rattle.spec_world.specs.Families.{change_object, lose_child as lose_child_of, add_child as add_child_of, put_below as put_below_of};
ghost use Rattle.view.specs.Law.{Goes, Lasts};

use crate::relatives::lists::{with_last, without};
use std::alloc::{AllocError, Global};
use view::header::Header;
use view::law::View;
use view::part::Part;
use view::readers::{read_children, read_header, write_part};

/// An object goes over from the children of one parent to those of another, the last. Where a parent is not there nothing changes for it.
pub fn put_below<V: View>(
    alloc: Global,
    view: &mut V,
    object: i32,
    before: i32,
    parent: i32,
) -> Result<(), AllocError>
    ensures lasts { Lasts V.holds V.home V.anchor view.old view.new result }
    ensures left { OnOk result (Goes V.holds V.now view.old view.new (λ was is. is ≡ put_below_of was object before parent)) }
{
    lose_child(alloc, view, before, object)?;
    put_parent(view, object, parent)?;
    add_child(alloc, view, parent, object)
}

/// An object is a child of another no more.
pub fn lose_child<V: View>(
    alloc: Global,
    view: &mut V,
    parent: i32,
    object: i32,
) -> Result<(), AllocError>
    ensures lasts { Lasts V.holds V.home V.anchor view.old view.new result }
    ensures left { OnOk result (Goes V.holds V.now view.old view.new (λ was is. is ≡ lose_child_of was parent object)) }
{
    let Some(children) = read_children(view, parent)? else {
        return Ok(());
    };
    let others = without(alloc, children.as_slice(), &object)?;
    write_part(view, parent, Part::Children(others))
}

/// An object is a child of another, the last.
pub fn add_child<V: View>(
    alloc: Global,
    view: &mut V,
    parent: i32,
    object: i32,
) -> Result<(), AllocError>
    ensures lasts { Lasts V.holds V.home V.anchor view.old view.new result }
    ensures left { OnOk result (Goes V.holds V.now view.old view.new (λ was is. is ≡ add_child_of was parent object)) }
{
    let Some(children) = read_children(view, parent)? else {
        return Ok(());
    };
    let all = with_last(alloc, children.as_slice(), object)?;
    write_part(view, parent, Part::Children(all))
}

/// An object names another parent.
pub fn put_parent<V: View>(view: &mut V, object: i32, parent: i32) -> Result<(), AllocError>
    ensures lasts { Lasts V.holds V.home V.anchor view.old view.new result }
    ensures left { OnOk result (Goes V.holds V.now view.old view.new
        (λ was is. is ≡ change_object was object (λ x. record x { header = record (x.header) { parent = parent } }))) }
{
    let Some(header) = read_header(view, object)? else {
        return Ok(());
    };
    let moved = with_parent(header, parent);
    write_part(view, object, Part::Header(moved))
}

fn with_parent(header: Header, parent: i32) -> Header
    ensures { result ≡ record header { parent = parent } }
{
    Header { parent, ..header }
}
