//! The small world that worked rows begin with.
ghost use Rattle.std.specs.Prelude.{◌≡◌, pos, negsuc, false, [], ◌∷◌, IfOk, IsTrue, codes};
ghost use Rattle.spec_value.specs.Datum.{is_text};
ghost use Rattle.spec_fixture.specs.Fixture as meant;

use crate::fixture_verbs::{box_verbs, room_verbs, system_verbs};
use moo_value::text::Text;
use moo_value::value::Value;
use slot_content::content::Content;
use std::alloc::{AllocError, Global};
use view::header::Header;
use view::link::Link;
use view::object::{Lists, Object};
use view::slot::Slot;
use view::slots::Slots;
use view::verb::Verbs;
use world::draft::Draft;
use world::worlds::World;

pub(crate) const NOWHERE: i32 = -1;

pub(crate) const WIZARD: i32 = 2;

/// The fixture: the objects #0 to #7, and the links 1 and 2 of the players #4 and #5.
pub fn fixture(alloc: Global) -> Result<World, AllocError>
    ensures plain { IfOk result (λ w. w.plain ≡ meant.fixture) }
    ensures opened { IfOk result (λ w. w.opened ≡ 0) }
{
    let draft = records(alloc)?;
    Ok(World::of_draft(draft))
}

pub(crate) fn records(alloc: Global) -> Result<Draft, AllocError>
    ensures { IfOk result (λ d. d ≡ meant.fixture) }
{
    let mut draft = objects(alloc)?;
    draft.put_link(1, Link::new(4))?;
    draft.put_link(2, Link::new(5))?;
    draft.set_greatest(7);
    Ok(draft)
}

fn objects(alloc: Global) -> Result<Draft, AllocError>
    ensures { IfOk result (λ d. d ≡ record { objects = meant.fixture.objects; tasks = []; links = []; greatest = negsuc 0; next = 1; ending = false }) }
{
    let mut draft = Draft::empty(alloc);
    draft.put_object(0, system(alloc)?)?;
    draft.put_object(1, root(alloc)?)?;
    draft.put_object(2, wizard(alloc)?)?;
    draft.put_object(3, room(alloc)?)?;
    draft.put_object(4, person(alloc, "Ann")?)?;
    draft.put_object(5, person(alloc, "Ben")?)?;
    draft.put_object(6, box_in_room(alloc)?)?;
    draft.put_object(7, thing(alloc)?)?;
    Ok(draft)
}

fn system(alloc: Global) -> Result<Object, AllocError>
    ensures { IfOk result (λ x. x ≡ meant.system) }
{
    let header = header(alloc, "System")?;
    with_verbs(alloc, header, &[], &[], system_verbs(alloc)?)
}

fn root(alloc: Global) -> Result<Object, AllocError>
    ensures { IfOk result (λ x. x ≡ meant.root) }
{
    let mut header = header(alloc, "Root")?;
    header.parent = NOWHERE;
    plain(alloc, header, &[0, 2, 3, 4, 5, 7], &[])
}

fn wizard(alloc: Global) -> Result<Object, AllocError>
    ensures { IfOk result (λ x. x ≡ meant.wizard) }
{
    let mut header = header(alloc, "Wizard")?;
    header.is_player = true;
    header.is_programmer = true;
    header.is_wizard = true;
    plain(alloc, header, &[], &[])
}

fn room(alloc: Global) -> Result<Object, AllocError>
    ensures { IfOk result (λ x. x ≡ meant.room (pos 0) meant.room_verbs) }
{
    let header = header(alloc, "Room")?;
    room_of(alloc, header, &[4, 5, 6], room_verbs(alloc)?)
}

// A room with a number, with this header, these contents and these verbs.
pub(crate) fn room_of(
    alloc: Global,
    header: Header,
    contents: &[i32],
    verbs: Verbs,
) -> Result<Object, AllocError>
    ensures { IfOk result (λ x. x ≡ record { header = header; children = []; contents = contents.now; defines = codes "n" ∷ []; slots = (codes "n", meant.n_slot (pos 0)) ∷ []; verbs = verbs }) }
{
    let lists = Lists {
        children: Vec::new(alloc),
        contents: contents.to_vec(alloc)?,
        defines: one_name(alloc)?,
    };
    let slot = Slot {
        content: Content::value(Value::integer(0)),
        owner: WIZARD,
        readable: true,
        writable: false,
        changeable: false,
    };
    let slots = Slots::single(alloc, Text::from_str(alloc, "n")?, slot)?;
    Object::new(alloc, header, lists, slots, verbs)
}

fn person(alloc: Global, name: &str) -> Result<Object, AllocError>
    requires { IsTrue (is_text name.now) }
    ensures { IfOk result (λ x. x ≡ meant.person name.now) }
{
    let mut header = header(alloc, name)?;
    header.is_player = true;
    header.location = 3;
    plain(alloc, header, &[], &[])
}

fn box_in_room(alloc: Global) -> Result<Object, AllocError>
    ensures { IfOk result (λ x. x ≡ meant.box) }
{
    let mut header = header(alloc, "box")?;
    header.parent = 7;
    header.location = 3;
    with_verbs(alloc, header, &[], &[], box_verbs(alloc)?)
}

fn thing(alloc: Global) -> Result<Object, AllocError>
    ensures { IfOk result (λ x. x ≡ meant.thing) }
{
    plain(alloc, header(alloc, "Thing")?, &[6], &[])
}

// The header of a child of the root, nowhere and owned by the wizard.
pub(crate) fn header(alloc: Global, name: &str) -> Result<Header, AllocError>
    requires { IsTrue (is_text name.now) }
    ensures { IfOk result (λ h. h ≡ meant.plain_header name.now) }
{
    Ok(Header {
        name: Text::from_str(alloc, name)?,
        owner: WIZARD,
        parent: 1,
        location: NOWHERE,
        is_player: false,
        is_programmer: false,
        is_wizard: false,
        readable: false,
        writable: false,
        fertile: false,
    })
}

// An object with no properties and no verbs.
pub(crate) fn plain(
    alloc: Global,
    header: Header,
    children: &[i32],
    contents: &[i32],
) -> Result<Object, AllocError>
    ensures { IfOk result (λ x. x ≡ record { header = header; children = children.now; contents = contents.now; defines = []; slots = []; verbs = [] }) }
{
    let verbs = Verbs::new(alloc, Vec::new(alloc))?;
    with_verbs(alloc, header, children, contents, verbs)
}

// An object with no properties and these verbs.
fn with_verbs(
    alloc: Global,
    header: Header,
    children: &[i32],
    contents: &[i32],
    verbs: Verbs,
) -> Result<Object, AllocError>
    ensures { IfOk result (λ x. x ≡ record { header = header; children = children.now; contents = contents.now; defines = []; slots = []; verbs = verbs }) }
{
    let lists = Lists {
        children: children.to_vec(alloc)?,
        contents: contents.to_vec(alloc)?,
        defines: Vec::new(alloc),
    };
    Object::new(alloc, header, lists, Slots::new(alloc), verbs)
}

fn one_name(alloc: Global) -> Result<Vec<Text>, AllocError>
    ensures { IfOk result (λ v. v.items ≡ codes "n" ∷ []) }
{
    let mut names = Vec::with_capacity(alloc, 1)?;
    names.push(Text::from_str(alloc, "n")?)?;
    Ok(names)
}
