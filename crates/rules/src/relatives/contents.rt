//! Contents and their places.
ghost use Rattle.std.specs.Prelude.{◌≡◌, IfOk, OnOk};
ghost use Rattle.spec_world.specs.Families.{change_object, out_of_place as out_of_place_of};
ghost use Rattle.spec_world.specs.Whereabouts.{put_into as put_into_of};
ghost use Rattle.view.specs.Law.{Goes, Lasts};

use crate::relatives::lists::{with_last, without};
use std::alloc::{AllocError, Global};
use view::header::Header;
use view::law::View;
use view::part::Part;
use view::readers::{read_contents, read_header, write_part};

/// An object is in the contents of a place no more.
pub fn out_of_place<V: View>(
    alloc: Global,
    view: &mut V,
    place: i32,
    object: i32,
) -> Result<(), AllocError>
    ensures lasts { Lasts V.holds V.home V.anchor view.old view.new result }
    ensures left { OnOk result (Goes V.holds V.now view.old view.new (λ was is. is ≡ out_of_place_of was place object)) }
{
    let Some(contents) = read_contents(view, place)? else {
        return Ok(());
    };
    let others = without(alloc, contents.as_slice(), &object)?;
    write_part(view, place, Part::Contents(others))
}

/// An object is in the contents of a place, the last.
pub fn put_into<V: View>(
    alloc: Global,
    view: &mut V,
    object: i32,
    place: i32,
) -> Result<(), AllocError>
    ensures lasts { Lasts V.holds V.home V.anchor view.old view.new result }
    ensures left { OnOk result (Goes V.holds V.now view.old view.new (λ was is. is ≡ put_into_of was object place)) }
{
    let Some(contents) = read_contents(view, place)? else {
        return Ok(());
    };
    let all = with_last(alloc, contents.as_slice(), object)?;
    write_part(view, place, Part::Contents(all))
}

/// An object names another place.
pub fn put_location<V: View>(view: &mut V, object: i32, place: i32) -> Result<(), AllocError>
    ensures lasts { Lasts V.holds V.home V.anchor view.old view.new result }
    ensures left { OnOk result (Goes V.holds V.now view.old view.new
        (λ was is. is ≡ change_object was object (λ x. record x { header = record (x.header) { location = place } }))) }
{
    let Some(header) = read_header(view, object)? else {
        return Ok(());
    };
    let moved = with_location(header, place);
    write_part(view, object, Part::Header(moved))
}

fn with_location(header: Header, place: i32) -> Header
    ensures { result ≡ record header { location = place } }
{
    Header {
        location: place,
        ..header
    }
}
