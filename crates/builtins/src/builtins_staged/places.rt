//! Where objects are, and where they go.
ghost use Rattle.std.specs.Prelude.{◌≡◌, IfOk, OnOk};
ghost use Rattle.spec_world.specs.World.{World, object_at};
ghost use Rattle.spec_world.specs.Naming.{location_of};
ghost use Rattle.spec_world.specs.Whereabouts.{is_inside as is_inside_of, moved};
ghost use Rattle.rules.specs.Lines.{AreAgreeing};
ghost use Rattle.view.specs.Law.{Goes, Lasts, Tells};
ghost use Rattle.builtins.specs.Moves.{is_in as is_in_of, MayMove};

use rules::relatives::contents::{out_of_place, put_into, put_location};
use std::alloc::{AllocError, Global};
use view::header::Header;
use view::law::View;
use view::readers::read_header;

/// Where an object is: -1 where it is in no place, or is not there.
pub fn location<V: View>(view: &mut V, object: i32) -> Result<i32, AllocError>
    ensures lasts { Lasts V.holds V.home V.anchor view.old view.new result }
    ensures left { IfOk result (λ p. Tells V.holds V.now view.old view.new (λ w. location_of (object_at w object) ≡ p)) }
{
    match read_header(view, object)? {
        Some(header) => Ok(header.location),
        None => Ok(-1),
    }
}

/// Whether what has this header is in a place.
pub fn is_in(header: &Option<Header>, place: i32) -> bool
    ensures { result ≡ is_in_of header.now place }
{
    match header {
        Some(header) => header.location == place,
        None => false,
    }
}

/// Whether a place is an object, or inside of it.
pub fn is_inside<V: View>(view: &mut V, what: i32, place: i32) -> Result<bool, AllocError>
    requires home { V.holds view.old (V.home view.old) }
    requires well_formed { AreAgreeing V.holds V.now view.old }
    ensures lasts { Lasts V.holds V.home V.anchor view.old view.new result }
    ensures left { IfOk result (λ b. Tells V.holds V.now view.old view.new (λ w. is_inside_of w what place ≡ b)) }
{
    let mut next = place;
    while next != what {
        let header = read_header(view, next)?;
        let Some(header) = header else {
            return Ok(false);
        };
        next = header.location;
    }
    Ok(true)
}

/// An object goes from the place where it is to another one, which is not inside of it.
pub fn go_over<V: View>(
    alloc: Global,
    view: &mut V,
    what: i32,
    before: i32,
    place: i32,
) -> Result<(), AllocError>
    requires home { V.holds view.old (V.home view.old) }
    requires well_formed { AreAgreeing V.holds V.now view.old }
    requires may_move { (w : World) → V.holds view.old w → MayMove (V.now view.old w) what place }
    requires location { (w : World) → V.holds view.old w → location_of (object_at (V.now view.old w) what) ≡ before }
    ensures lasts { Lasts V.holds V.home V.anchor view.old view.new result }
    ensures left { OnOk result (Goes V.holds V.now view.old view.new (λ was is. is ≡ moved was what place)) }
    ensures well_formed { OnOk result (AreAgreeing V.holds V.now view.new) }
{
    out_of_place(alloc, view, before, what)?;
    put_location(view, what, place)?;
    put_into(alloc, view, what, place)
}
