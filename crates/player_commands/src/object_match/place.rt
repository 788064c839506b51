//! Where objects are.
ghost use Rattle.std.specs.Prelude.{◌≡◌, IfOk};
ghost use Rattle.spec_world.specs.World.{object_at};
ghost use Rattle.spec_world.specs.Naming.{location_of};
ghost use Rattle.view.specs.Law.{Lasts, Tells};

use std::alloc::AllocError;
use view::law::View;
use view::readers::read_header;

/// Where an object is, -1 where it is not there.
pub fn location<V: View>(view: &mut V, object: i32) -> Result<i32, AllocError>
    ensures lasts { Lasts V.holds V.home V.anchor view.old view.new result }
    ensures left { IfOk result (λ o. Tells V.holds V.now view.old view.new (λ w. location_of (object_at w object) ≡ o)) }
{
    let header = read_header(view, object)?;
    match header {
        Some(header) => Ok(header.location),
        None => Ok(-1),
    }
}
