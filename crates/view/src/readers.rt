//! What is read of a view and written to it, question by question.
ghost use Rattle.std.specs.Prelude.{◌≡◌, option_map, IfOk, OnOk};
ghost use Rattle.spec_value.specs.Table.{at};
ghost use Rattle.spec_world.specs.Inherit.{slot_at};
ghost use Rattle.spec_world.specs.Listings.{waiting_ids, readers_on, connections_of, connected};
ghost use Rattle.spec_world.specs.Questions.{header_at, children_at, contents_at, defines_at, verbs_at, apply, new_part, new_value, new_object, new_task, new_link, new_greatest, new_ending, new_next};
ghost use Rattle.view.specs.Meanings.{part_of, change_of};
ghost use Rattle.view.specs.Law.{Goes, Keeps, Lasts, StaysSound, Tells};

use crate::change::Change;
use crate::header::Header;
use crate::law::View;
use crate::link::Link;
use crate::lists::{Names, Numbers, Objects, Players};
use crate::object::Object;
use crate::part::Part;
use crate::question::{Answer, Question};
use crate::slot::Slot;
use crate::verb::Verbs;
use moo_task::task::Task;
use moo_value::text::Text;
use moo_value::value::Value;
use std::alloc::AllocError;

/// An object's header, or None where there is no such object.
pub fn read_header<V: View>(view: &mut V, object: i32) -> Result<Option<Header>, AllocError>
    ensures lasts { Lasts V.holds V.home V.anchor view.old view.new result }
    ensures left { IfOk result (λ h. Tells V.holds V.now view.old view.new (λ w. header_at w object ≡ h)) }
    ensures sound { OnOk result (StaysSound V.home V.now view.old view.new) }
{
    match view.get(&Question::Header(object))? {
        Answer::Header(header) => Ok(header),
        _ => unreachable!(),
    }
}

/// An object's children, or None where there is no such object.
pub fn read_children<V: View>(view: &mut V, object: i32) -> Result<Option<Objects>, AllocError>
    ensures lasts { Lasts V.holds V.home V.anchor view.old view.new result }
    ensures left { IfOk result (λ a. Tells V.holds V.now view.old view.new (λ w. children_at w object ≡ a)) }
    ensures sound { OnOk result (StaysSound V.home V.now view.old view.new) }
{
    match view.get(&Question::Children(object))? {
        Answer::Children(children) => Ok(children),
        _ => unreachable!(),
    }
}

/// An object's contents, or None where there is no such object.
pub fn read_contents<V: View>(view: &mut V, object: i32) -> Result<Option<Objects>, AllocError>
    ensures lasts { Lasts V.holds V.home V.anchor view.old view.new result }
    ensures left { IfOk result (λ a. Tells V.holds V.now view.old view.new (λ w. contents_at w object ≡ a)) }
    ensures sound { OnOk result (StaysSound V.home V.now view.old view.new) }
{
    match view.get(&Question::Contents(object))? {
        Answer::Contents(contents) => Ok(contents),
        _ => unreachable!(),
    }
}

/// The names of the properties that an object defines, or None where there is no such object.
pub fn read_defines<V: View>(view: &mut V, object: i32) -> Result<Option<Names>, AllocError>
    ensures lasts { Lasts V.holds V.home V.anchor view.old view.new result }
    ensures left { IfOk result (λ a. Tells V.holds V.now view.old view.new (λ w. defines_at w object ≡ a)) }
    ensures sound { OnOk result (StaysSound V.home V.now view.old view.new) }
{
    match view.get(&Question::Defines(object))? {
        Answer::Defines(names) => Ok(names),
        _ => unreachable!(),
    }
}

/// The parent that an object names, or None where there is no such object. A negative number names none.
#[inline(always)]
pub fn read_parent<V: View>(view: &mut V, object: i32) -> Result<Option<i32>, AllocError>
    ensures lasts { Lasts V.holds V.home V.anchor view.old view.new result }
    ensures left { IfOk result (λ p. Tells V.holds V.now view.old view.new (λ w. option_map (λ h. h.parent) (header_at w object) ≡ p)) }
    ensures sound { OnOk result (StaysSound V.home V.now view.old view.new) }
{
    view.parent(object)
}

/// A property's slot on an object, or None where there is none. Case is ignored.
#[inline(always)]
pub fn read_slot<V: View>(
    view: &mut V,
    object: i32,
    name: &Text,
) -> Result<Option<Slot>, AllocError>
    ensures lasts { Lasts V.holds V.home V.anchor view.old view.new result }
    ensures left { IfOk result (λ s. Tells V.holds V.now view.old view.new (λ w. slot_at w object name.now ≡ s)) }
    ensures sound { OnOk result (StaysSound V.home V.now view.old view.new) }
{
    view.slot(object, name)
}

/// An object's own verbs, or None where there is no such object.
#[inline(always)]
pub fn read_verbs<V: View>(view: &mut V, object: i32) -> Result<Option<Verbs>, AllocError>
    ensures lasts { Lasts V.holds V.home V.anchor view.old view.new result }
    ensures left { IfOk result (λ vs. Tells V.holds V.now view.old view.new (λ w. verbs_at w object ≡ vs)) }
    ensures sound { OnOk result (StaysSound V.home V.now view.old view.new) }
{
    view.verbs(object)
}

/// The task of an id, or None where none waits.
pub fn read_task<V: View>(view: &mut V, id: i32) -> Result<Option<Task>, AllocError>
    ensures lasts { Lasts V.holds V.home V.anchor view.old view.new result }
    ensures left { IfOk result (λ a. Tells V.holds V.now view.old view.new (λ w. at w.tasks id ≡ a)) }
    ensures sound { OnOk result (StaysSound V.home V.now view.old view.new) }
{
    match view.get(&Question::Task(id))? {
        Answer::Task(task) => Ok(task),
        _ => unreachable!(),
    }
}

/// The ids of the tasks that wait, in order.
pub fn read_waiting<V: View>(view: &mut V) -> Result<Numbers, AllocError>
    ensures lasts { Lasts V.holds V.home V.anchor view.old view.new result }
    ensures left { IfOk result (λ a. Tells V.holds V.now view.old view.new (λ w. waiting_ids w ≡ a)) }
    ensures sound { OnOk result (StaysSound V.home V.now view.old view.new) }
{
    match view.get(&Question::Waiting)? {
        Answer::Waiting(ids) => Ok(ids),
        _ => unreachable!(),
    }
}

/// The link of a number, or None where it is not open.
pub fn read_link<V: View>(view: &mut V, number: i32) -> Result<Option<Link>, AllocError>
    ensures lasts { Lasts V.holds V.home V.anchor view.old view.new result }
    ensures left { IfOk result (λ k. Tells V.holds V.now view.old view.new (λ w. at w.links number ≡ k)) }
    ensures sound { OnOk result (StaysSound V.home V.now view.old view.new) }
{
    match view.get(&Question::Link(number))? {
        Answer::Link(link) => Ok(link),
        _ => unreachable!(),
    }
}

/// The ids of the tasks that read on a connection, in order.
pub fn read_readers<V: View>(view: &mut V, connection: i32) -> Result<Numbers, AllocError>
    ensures lasts { Lasts V.holds V.home V.anchor view.old view.new result }
    ensures left { IfOk result (λ a. Tells V.holds V.now view.old view.new (λ w. readers_on w connection ≡ a)) }
    ensures sound { OnOk result (StaysSound V.home V.now view.old view.new) }
{
    match view.get(&Question::Readers(connection))? {
        Answer::Readers(ids) => Ok(ids),
        _ => unreachable!(),
    }
}

/// The connections of a person, in order.
pub fn read_connections<V: View>(view: &mut V, person: i32) -> Result<Numbers, AllocError>
    ensures lasts { Lasts V.holds V.home V.anchor view.old view.new result }
    ensures left { IfOk result (λ a. Tells V.holds V.now view.old view.new (λ w. connections_of w person ≡ a)) }
    ensures sound { OnOk result (StaysSound V.home V.now view.old view.new) }
{
    match view.get(&Question::Connections(person))? {
        Answer::Connections(connections) => Ok(connections),
        _ => unreachable!(),
    }
}

/// The connections on which players have logged in, with the players, in the order of the connections.
pub fn read_connected<V: View>(view: &mut V) -> Result<Players, AllocError>
    ensures lasts { Lasts V.holds V.home V.anchor view.old view.new result }
    ensures left { IfOk result (λ a. Tells V.holds V.now view.old view.new (λ w. connected w ≡ a)) }
    ensures sound { OnOk result (StaysSound V.home V.now view.old view.new) }
{
    match view.get(&Question::Connected)? {
        Answer::Connected(players) => Ok(players),
        _ => unreachable!(),
    }
}

/// The greatest number that an object has had, -1 where there was none.
pub fn read_greatest<V: View>(view: &mut V) -> Result<i32, AllocError>
    ensures lasts { Lasts V.holds V.home V.anchor view.old view.new result }
    ensures left { IfOk result (λ a. Tells V.holds V.now view.old view.new (λ w. w.greatest ≡ a)) }
    ensures sound { OnOk result (StaysSound V.home V.now view.old view.new) }
{
    match view.get(&Question::Greatest)? {
        Answer::Greatest(greatest) => Ok(greatest),
        _ => unreachable!(),
    }
}

/// Whether the server is about to end.
pub fn read_ending<V: View>(view: &mut V) -> Result<bool, AllocError>
    ensures lasts { Lasts V.holds V.home V.anchor view.old view.new result }
    ensures left { IfOk result (λ b. Tells V.holds V.now view.old view.new (λ w. w.ending ≡ b)) }
    ensures sound { OnOk result (StaysSound V.home V.now view.old view.new) }
{
    match view.get(&Question::Ending)? {
        Answer::Ending(ending) => Ok(ending),
        _ => unreachable!(),
    }
}

/// An object has another part. Where there is no such object nothing changes.
pub fn write_part<V: View>(view: &mut V, object: i32, part: Part) -> Result<(), AllocError>
    ensures lasts { Lasts V.holds V.home V.anchor view.old view.new result }
    ensures left { OnOk result (Goes V.holds V.now view.old view.new (λ before after. after ≡ apply (new_part object (part_of part)) before)) }
    ensures kept { OnOk result (Keeps V.holds view.old view.new) }
{
    view.put(Change::Part(object, part))
}

/// An object is made, or is another one, or goes.
pub fn write_object<V: View>(
    view: &mut V,
    number: i32,
    object: Option<Object>,
) -> Result<(), AllocError>
    ensures lasts { Lasts V.holds V.home V.anchor view.old view.new result }
    ensures left { OnOk result (Goes V.holds V.now view.old view.new (λ before after. after ≡ apply (new_object number object) before)) }
    ensures kept { OnOk result (Keeps V.holds view.old view.new) }
{
    view.put(Change::Object(number, object))
}

/// A task comes to wait, or is another one, or waits no more.
pub fn write_task<V: View>(view: &mut V, id: i32, task: Option<Task>) -> Result<(), AllocError>
    ensures lasts { Lasts V.holds V.home V.anchor view.old view.new result }
    ensures left { OnOk result (Goes V.holds V.now view.old view.new (λ before after. after ≡ apply (new_task id task) before)) }
    ensures kept { OnOk result (Keeps V.holds view.old view.new) }
{
    view.put(Change::Task(id, task))
}

/// A link is opened, or is another one, or goes.
pub fn write_link<V: View>(view: &mut V, number: i32, link: Option<Link>) -> Result<(), AllocError>
    ensures lasts { Lasts V.holds V.home V.anchor view.old view.new result }
    ensures left { OnOk result (Goes V.holds V.now view.old view.new (λ before after. after ≡ apply (new_link number link) before)) }
    ensures kept { OnOk result (Keeps V.holds view.old view.new) }
{
    view.put(Change::Link(number, link))
}

/// The greatest number that an object has had.
pub fn write_greatest<V: View>(view: &mut V, greatest: i32) -> Result<(), AllocError>
    ensures lasts { Lasts V.holds V.home V.anchor view.old view.new result }
    ensures left { OnOk result (Goes V.holds V.now view.old view.new (λ before after. after ≡ apply (new_greatest greatest) before)) }
    ensures kept { OnOk result (Keeps V.holds view.old view.new) }
{
    view.put(Change::Greatest(greatest))
}

/// Whether the server is about to end.
pub fn write_ending<V: View>(view: &mut V, ending: bool) -> Result<(), AllocError>
    ensures lasts { Lasts V.holds V.home V.anchor view.old view.new result }
    ensures left { OnOk result (Goes V.holds V.now view.old view.new (λ before after. after ≡ apply (new_ending ending) before)) }
    ensures kept { OnOk result (Keeps V.holds view.old view.new) }
{
    view.put(Change::Ending(ending))
}

/// A property's slot on an object has another value. Where there is no such slot nothing changes.
pub fn write_value<V: View>(
    view: &mut V,
    object: i32,
    name: &Text,
    value: Value,
) -> Result<(), AllocError>
    ensures lasts { Lasts V.holds V.home V.anchor view.old view.new result }
    ensures left { OnOk result (Goes V.holds V.now view.old view.new (λ before after. after ≡ apply (new_value object name.now value) before)) }
    ensures kept { OnOk result (Keeps V.holds view.old view.new) }
    ensures sound { OnOk result (StaysSound V.home V.now view.old view.new) }
{
    let name = name.clone()?;
    let change = new_value_of(object, name, value);
    view.put(change)
}

/// The next step has at least this number.
pub fn raise_next<V: View>(view: &mut V, next: u64) -> Result<(), AllocError>
    ensures lasts { Lasts V.holds V.home V.anchor view.old view.new result }
    ensures left { OnOk result (Goes V.holds V.now view.old view.new (λ before after. after ≡ apply (new_next next) before)) }
    ensures kept { OnOk result (Keeps V.holds view.old view.new) }
    ensures sound { OnOk result (StaysSound V.home V.now view.old view.new) }
{
    view.put(Change::Next(next))
}

#[inline(always)]
fn new_value_of(object: i32, name: Text, value: Value) -> Change
    ensures { change_of result ≡ new_value object name value }
{
    Change::Value(object, name, value)
}
