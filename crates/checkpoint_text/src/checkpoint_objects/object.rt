//! The lines of objects.
ghost use Rattle.std.specs.Prelude.{◌≡◌, ◌++◌, Some, OnOk};
ghost use Rattle.spec_world.specs.World.{object_at};
ghost use Rattle.spec_world.specs.Checkpoint.{object_lines, with_line_ends};
ghost use Rattle.checkpoint_text.specs.Each.{of_each, of_found};
ghost use Rattle.checkpoint_text.specs.CheckpointObjectsLines.{family_lines, flags_of, location_lines, name_lines, own_lines, owner_lines};
ghost use Rattle.checkpoint_text.specs.Shortcuts.{ArePassed};

use crate::checkpoint_fields::page::Page;
use crate::checkpoint_objects::shortcut::Shortcut;
use crate::checkpoint_objects::slot::put_slots;
use crate::checkpoint_objects::verb::put_verbs;
use std::alloc::{AllocError, Global};
use view::header::Header;
use view::object::Object;
use world::draft::Draft;

/// Writes the objects of these numbers.
pub fn put_objects(
    page: &mut Page,
    alloc: Global,
    draft: &Draft,
    shortcuts: &[Shortcut],
    numbers: &[i32],
) -> Result<(), AllocError>
    requires { ArePassed draft.now shortcuts.now }
    ensures { OnOk result (page.new ≡ page.old ++ with_line_ends (of_each (object_lines draft.now) draft.now.objects numbers.now)) }
{
    for number in numbers {
        put_found(page, alloc, draft, shortcuts, *number)?;
    }
    Ok(())
}

/// Writes the object of a number, if there is one.
pub(crate) fn put_found(
    page: &mut Page,
    alloc: Global,
    draft: &Draft,
    shortcuts: &[Shortcut],
    number: i32,
) -> Result<(), AllocError>
    requires { ArePassed draft.now shortcuts.now }
    ensures { OnOk result (page.new ≡ page.old ++ with_line_ends (of_found (object_lines draft.now) number (object_at draft.now number))) }
{
    match draft.object(number) {
        Some(object) => put_object(page, alloc, draft, shortcuts, number, object),
        None => Ok(()),
    }
}

fn put_object(
    page: &mut Page,
    alloc: Global,
    draft: &Draft,
    shortcuts: &[Shortcut],
    number: i32,
    object: &Object,
) -> Result<(), AllocError>
    requires shortcuts { ArePassed draft.now shortcuts.now }
    requires there { object_at draft.now number ≡ Some object.now }
    ensures { OnOk result (page.new ≡ page.old ++ with_line_ends (object_lines draft.now number object.now)) }
{
    put_name(page, number, object.header())?;
    put_owner(page, object.header())?;
    put_location(page, object.header())?;
    put_family(page, object)?;
    put_own(page, object)?;
    put_slots(page, alloc, draft, shortcuts, number, object)?;
    put_verbs(page, object.verbs().as_slice())?;
    Ok(())
}

fn put_name(page: &mut Page, number: i32, header: &Header) -> Result<(), AllocError>
    ensures { OnOk result (page.new ≡ page.old ++ with_line_ends (name_lines number header.now)) }
{
    page.put("object ")?;
    page.put_signed(number)?;
    page.put("\nname ")?;
    page.put_text(&header.name)?;
    page.end_line()
}

fn put_owner(page: &mut Page, header: &Header) -> Result<(), AllocError>
    ensures { OnOk result (page.new ≡ page.old ++ with_line_ends (owner_lines header.now)) }
{
    page.put("owner ")?;
    page.put_object(header.owner)?;
    page.put("\nparent ")?;
    page.put_object(header.parent)?;
    page.end_line()
}

fn put_location(page: &mut Page, header: &Header) -> Result<(), AllocError>
    ensures { OnOk result (page.new ≡ page.old ++ with_line_ends (location_lines header.now)) }
{
    page.put("location ")?;
    page.put_object(header.location)?;
    page.end_line()
}

fn put_family(page: &mut Page, object: &Object) -> Result<(), AllocError>
    ensures { OnOk result (page.new ≡ page.old ++ with_line_ends (family_lines object.now)) }
{
    page.put("children ")?;
    page.put_objects(object.children().as_slice())?;
    page.put("\ncontents ")?;
    page.put_objects(object.contents().as_slice())?;
    page.end_line()
}

fn put_own(page: &mut Page, object: &Object) -> Result<(), AllocError>
    ensures { OnOk result (page.new ≡ page.old ++ with_line_ends (own_lines object.now)) }
{
    page.put("flags ")?;
    put_flags(page, object.header())?;
    page.put("\ndefines ")?;
    page.put_texts(object.defines().as_slice())?;
    page.end_line()
}

fn put_flags(page: &mut Page, header: &Header) -> Result<(), AllocError>
    ensures { OnOk result (page.new ≡ page.old ++ flags_of header.now) }
{
    page.put_flag(header.is_player)?;
    page.put_flag(header.is_programmer)?;
    page.put_flag(header.is_wizard)?;
    page.put_flag(header.readable)?;
    page.put_flag(header.writable)?;
    page.put_flag(header.fertile)
}
