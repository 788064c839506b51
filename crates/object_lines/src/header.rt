//! Headers of objects, from their lines.
ghost use Rattle.std.specs.Prelude.{◌≡◌, List, [], ◌∷◌, ◌++◌, IsTrue, codes};
ghost use Rattle.spec_value.specs.Datum as datum;
ghost use Rattle.spec_world.specs.World.{Header as Meant, Object};
ghost use Rattle.spec_world.specs.Checkpoint.{fields, flags_text};
ghost use Rattle.spec_checkpoint.specs.Holding.{header_holds};
ghost use Rattle.line_fields.specs.Bits.{flags_of};
ghost use Rattle.checkpoint_lines.specs.Rows.{Left, Reads};
ghost use Rattle.checkpoint_lines.specs.Told.{Tells};
ghost use Rattle.object_lines.specs.Parts.{naming_lines, IsNaming};
ghost use Rattle.object_lines.specs.ObjectAwaited.{naming_awaited, flags_awaited};

use checkpoint_lines::fault::DecodeError;
use checkpoint_lines::lines::Lines;
use line_fields::bits::ObjectFlags;
use moo_value::text::Text;
use std::alloc::Global;
use view::header::Header;

/// The first of the lines that a header has: the name, the owner, the parent and the location.
#[derive(Drop)]
pub struct Naming {
    name: Text,
    owner: i32,
    parent: i32,
    location: i32,
}

/// The name, the owner, the parent and the location, from the next lines.
pub fn next_naming(alloc: Global, lines: &mut Lines<'_>) -> Result<Naming, DecodeError>
    ensures reads { (h : Meant) (rest : List datum.Text) → IsTrue (header_holds h) → Left lines.old (naming_lines h ++ rest) → Reads result lines.new rest (λ n. IsNaming n h) }
    ensures tells { Tells result lines.old lines.new naming_awaited (λ _. []) }
{
    let name = lines.next_text(alloc, b"name")?;
    let owner = lines.next_object(alloc, b"owner")?;
    let parent = lines.next_object(alloc, b"parent")?;
    let location = lines.next_object(alloc, b"location")?;
    Ok(Naming {
        name,
        owner,
        parent,
        location,
    })
}

/// The header of these lines, with the object's flags.
pub fn header(naming: Naming, flags: ObjectFlags) -> Header
    ensures reads { (x : Object) → IsNaming naming x.header → flags ≡ flags_of x → result ≡ x.header }
{
    let Naming {
        name,
        owner,
        parent,
        location,
    } = naming;
    Header {
        name,
        owner,
        parent,
        location,
        is_player: flags.is_player,
        is_programmer: flags.is_programmer,
        is_wizard: flags.is_wizard,
        readable: flags.readable,
        writable: flags.writable,
        fertile: flags.fertile,
    }
}

/// The flags of an object, from the next line.
pub fn next_flags(alloc: Global, lines: &mut Lines<'_>) -> Result<ObjectFlags, DecodeError>
    ensures reads { (x : Object) (rest : List datum.Text) → Left lines.old (fields (codes "flags" ∷ flags_text x ∷ []) ∷ rest) → Reads result lines.new rest (λ f. f ≡ flags_of x) }
    ensures tells { Tells result lines.old lines.new flags_awaited (λ _. []) }
{
    let row = lines.next_with(alloc, b"flags", 1)?;
    row.object_flags(1)
}
