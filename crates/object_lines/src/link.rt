//! Links, from their lines.
ghost use Rattle.std.specs.Prelude.{◌≡◌, ◌↔◌, ℤ, pos, List, [], ◌∷◌, ◌++◌, Option, Some, IsTrue, IfOk};
ghost use Rattle.spec_value.specs.Datum as datum;
ghost use Rattle.spec_world.specs.World as meant;
ghost use Rattle.spec_world.specs.Checkpoint.{link_lines, lines_held, programming_held};
ghost use Rattle.checkpoint_lines.specs.Rows.{Left, Reads};
ghost use Rattle.object_lines.specs.Readable.{is_link_read};
ghost use Rattle.spec_faults.specs.Literals.{are_lines_held, is_programming};
ghost use Rattle.spec_faults.specs.Forms.{link_form};
ghost use Rattle.spec_faults.specs.Awaited.{one};
ghost use Rattle.checkpoint_lines.specs.Told.{Tells};
ghost use Rattle.object_lines.specs.Held.{held_of, is_known};

use checkpoint_lines::fault::{DecodeError, FaultKind};
use checkpoint_lines::lines::Lines;
use line_fields::held::{items_in, object_in, text_in, texts_in};
use moo_value::text::Text;
use moo_value::value::{Shown, Value};
use std::alloc::{AllocError, Global};
use view::link::{Link, Programming};
use view::lists::Names;

/// What a link's last field can say.
#[derive(Drop)]
enum Held {
    Nothing,
    Programming(Programming),
    /// It is of another kind than belongs there.
    Other,
}

/// A link with its number, from the next line.
pub fn next_link(alloc: Global, lines: &mut Lines<'_>) -> Result<(i32, Link), DecodeError>
    ensures reads { (c : ℤ) (k : meant.Link) (rest : List datum.Text) → IsTrue (is_link_read (c, k)) → Left lines.old (link_lines ((c, k) ∷ []) ++ rest) → Reads result lines.new rest (λ e. (e.0 ≡ c) × (e.1 ≡ k)) }
    ensures tells { Tells result lines.old lines.new (one link_form ∷ []) (λ _. []) }
{
    let row = lines.next_with(alloc, b"link", 3)?;
    let number = row.integer(1, 1, LAST_CONNECTION)?;
    let person = row.object(2)?;
    let value = row.value(alloc, 3)?;
    let held = held_in(alloc, &value)?;
    match held {
        Held::Nothing => Ok((number, Link::new(person))),
        Held::Programming(programming) => Ok((number, programmed(person, programming))),
        Held::Other => Err(row.fault(FaultKind::Value)),
    }
}

// The greatest number of a connection.
const LAST_CONNECTION: i32 = 999_999;

fn programmed(person: i32, programming: Programming) -> Link
    ensures { result ≡ record { person = person; programming = Some programming } }
{
    Link {
        person,
        programming: Some(programming),
    }
}

// What the value says that a link is programming: 0 is nothing.
fn held_in(alloc: Global, value: &Value) -> Result<Held, AllocError>
    ensures reads { (g : Option meant.Programming) → value.now ≡ programming_held g → IfOk result (λ h. h ≡ held_of g) }
    ensures tells { IfOk result (λ h. is_known h ≡ is_programming value.now) }
{
    if is_zero(value) {
        return Ok(Held::Nothing);
    }
    match items_in(value) {
        Some(items) => held_items(alloc, items),
        None => Ok(Held::Other),
    }
}

fn held_items(alloc: Global, items: &[Value]) -> Result<Held, AllocError>
    ensures reads { (g : meant.Programming) → items.now ≡ datum.object g.object ∷ datum.text g.verb ∷ lines_held g.lines ∷ [] → IfOk result (λ h. h ≡ held_of (Some g)) }
    ensures tells { IfOk result (λ h. is_known h ≡ is_programming (datum.list (datum.of_list items.now))) }
{
    match items {
        [object, verb, lines] => programming(alloc, object, verb, lines),
        _ => Ok(Held::Other),
    }
}

fn programming(
    alloc: Global,
    object: &Value,
    verb: &Value,
    lines: &Value,
) -> Result<Held, AllocError>
    ensures reads { (g : meant.Programming) → object.now ≡ datum.object g.object → verb.now ≡ datum.text g.verb → lines.now ≡ lines_held g.lines → IfOk result (λ h. h ≡ held_of (Some g)) }
    ensures tells { IfOk result (λ h. is_known h ≡ is_programming (datum.list (datum.of_list (object.now ∷ verb.now ∷ lines.now ∷ [])))) }
{
    let Some(object) = object_in(object) else {
        return Ok(Held::Other);
    };
    let found = text_in(alloc, verb)?;
    match found {
        Some(verb) => with_lines(alloc, object, verb, lines),
        None => Ok(Held::Other),
    }
}

// The lines so far are a list of texts, or 0 once they were too long.
fn with_lines(alloc: Global, object: i32, verb: Text, lines: &Value) -> Result<Held, AllocError>
    ensures reads { (g : meant.Programming) → object ≡ g.object → verb ≡ g.verb → lines.now ≡ lines_held g.lines → IfOk result (λ h. h ≡ held_of (Some g)) }
    ensures tells { IfOk result (λ h. is_known h ≡ are_lines_held lines.now) }
{
    if is_zero(lines) {
        return Ok(Held::Programming(Programming {
            object,
            verb,
            lines: None,
        }));
    }
    let found = texts_in(alloc, lines)?;
    let Some(texts) = found else {
        return Ok(Held::Other);
    };
    let texts = Names::new(alloc, texts)?;
    Ok(Held::Programming(Programming {
        object,
        verb,
        lines: Some(texts),
    }))
}

fn is_zero(value: &Value) -> bool
    ensures { IsTrue result ↔ value.now ≡ datum.integer (pos 0) }
{
    match value.shown() {
        Shown::Integer(number) => number == 0,
        _ => false,
    }
}
