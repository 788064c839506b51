//! The two ways from object to object: along parent, and along location.
ghost use Rattle.std.specs.Prelude.{◌≡◌};
ghost use Rattle.world_checks.specs.Ways.{up_of, down_of};

use view::object::Object;

/// A way up from objects: to parents, or to locations. The way back leads to children, or to contents.
#[derive(Clone, Copy)]
pub enum Way {
    Parent,
    Location,
}

/// The number of the object above, or of what is no object.
pub fn up(way: Way, object: &Object) -> i32
    ensures { result ≡ up_of way object.now }
{
    match way {
        Way::Parent => object.header().parent,
        Way::Location => object.header().location,
    }
}

/// The numbers of the objects below.
pub fn down(way: Way, object: &Object) -> &[i32]
    ensures { result.now ≡ down_of way object.now }
{
    match way {
        Way::Parent => object.children().as_slice(),
        Way::Location => object.contents().as_slice(),
    }
}
