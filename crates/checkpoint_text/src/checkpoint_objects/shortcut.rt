//! Shortcuts along parents, past objects that define no property: so what a line of many parents costs does not grow with those.
//!
//! They are made first, of which nothing is promised, and then checked one by one.
ghost use Rattle.std.specs.Prelude.{◌≡◌, ◌-◌, ◌⊎◌, [], IfOk, IsTrue};
ghost use Rattle.checkpoint_text.specs.Shortcuts.{Leads, GoesOn, AllGoOn, ArePassed};

use std::alloc::{AllocError, Global};
use view::object::Object;
use world::draft::Draft;

/// So many objects, from one upwards, define no property. Behind them comes another number.
#[derive(Clone, Copy)]
pub struct Shortcut {
    pub from: i32,
    pub over: u32,
    pub to: i32,
}

// How often shortcuts are lengthened at most. Each time may double them, so more is never wanted.
const ROUNDS: usize = 32;

// No object has a greater number.
const LIMIT: usize = 1048576;

/// Shortcuts from the objects of these numbers.
#[tactic(auto, using(crate::proofs::Shortcuts::are_passed))]
pub fn shortcuts(alloc: Global, draft: &Draft, numbers: &[i32]) -> Result<Vec<Shortcut>, AllocError>
    ensures { IfOk result (λ v. ArePassed draft.now v.items) }
{
    let found = long_steps(alloc, draft, numbers)?;
    if go_on(draft, &found) {
        Ok(found)
    } else {
        Ok(Vec::new(alloc))
    }
}

/// The shortcut from an object upwards, which leads over none where none is known.
pub fn beyond(shortcuts: &[Shortcut], number: i32) -> Shortcut
    ensures { Leads shortcuts.now number result.over result.to }
{
    if number < 0 {
        return nowhere(number);
    }
    match shortcuts.get(number as usize) {
        Some(found) => if found.from == number {
            *found
        } else {
            nowhere(number)
        },
        None => nowhere(number),
    }
}

fn nowhere(number: i32) -> Shortcut
    ensures from { result.from ≡ number }
    ensures over { result.over ≡ 0 }
    ensures to { result.to ≡ number }
{
    Shortcut {
        from: number,
        over: 0,
        to: number,
    }
}

// ---- whether they are right

fn go_on(draft: &Draft, shortcuts: &[Shortcut]) -> bool
    ensures { IsTrue result → AllGoOn draft.now shortcuts.now shortcuts.now }
{
    for shortcut in shortcuts {
        if !goes_on(draft, shortcuts, *shortcut) {
            return false;
        }
    }
    true
}

// Whether a shortcut is over no object, or goes on as the one from the parent does.
fn goes_on(draft: &Draft, shortcuts: &[Shortcut], shortcut: Shortcut) -> bool
    ensures { IsTrue result → GoesOn draft.now shortcuts.now shortcut.from shortcut.over shortcut.to }
{
    if shortcut.over == 0 {
        return shortcut.to == shortcut.from;
    }
    match draft.object(shortcut.from) {
        Some(object) => goes_on_above(shortcuts, shortcut, object),
        None => false,
    }
}

fn goes_on_above(shortcuts: &[Shortcut], shortcut: Shortcut, object: &Object) -> bool
    ensures defines { IsTrue result → object.now.defines ≡ [] }
    ensures leads { IsTrue result → Leads shortcuts.now object.now.header.parent (shortcut.over - 1) shortcut.to }
{
    if defines_any(object) {
        return false;
    }
    let next = beyond(shortcuts, parent(object));
    next.over == shortcut.over.saturating_sub(1) && next.to == shortcut.to
}

fn defines_any(object: &Object) -> bool
    ensures { IsTrue result ⊎ (object.now.defines ≡ []) }
{
    match object.defines().as_slice() {
        [] => false,
        [_, ..] => true,
    }
}

/// The number of an object's parent.
pub fn parent(object: &Object) -> i32
    ensures { result ≡ object.now.header.parent }
{
    object.header().parent
}

// ---- how they are made

fn long_steps(alloc: Global, draft: &Draft, numbers: &[i32]) -> Result<Vec<Shortcut>, AllocError> {
    let mut found = steps(alloc, draft, numbers)?;
    for _round in 0..ROUNDS {
        if !lengthen(&mut found) {
            break;
        }
    }
    Ok(found)
}

// Over one object each.
fn steps(alloc: Global, draft: &Draft, numbers: &[i32]) -> Result<Vec<Shortcut>, AllocError> {
    let mut found = Vec::new(alloc);
    for number in numbers {
        put(&mut found, step(draft, *number))?;
    }
    Ok(found)
}

fn step(draft: &Draft, number: i32) -> Shortcut {
    match draft.object(number) {
        Some(object) => step_from(number, object),
        None => nowhere(number),
    }
}

fn step_from(number: i32, object: &Object) -> Shortcut {
    if defines_any(object) {
        return nowhere(number);
    }
    Shortcut {
        from: number,
        over: 1,
        to: parent(object),
    }
}

fn put(shortcuts: &mut Vec<Shortcut>, shortcut: Shortcut) -> Result<(), AllocError> {
    if shortcut.from < 0 {
        return Ok(());
    }
    let index = shortcut.from as usize;
    if index >= LIMIT {
        return Ok(());
    }
    if index >= shortcuts.len() {
        shortcuts.resize(index + 1, nowhere(-1))?;
    }
    shortcuts[index] = shortcut;
    Ok(())
}

// Lengthens each shortcut by the one behind it. Whether there was one to lengthen.
fn lengthen(shortcuts: &mut Vec<Shortcut>) -> bool {
    let mut longer = false;
    for index in 0..shortcuts.len() {
        let one = shortcuts[index];
        let next = beyond(shortcuts, one.to);
        if one.over > 0 && next.over > 0 {
            shortcuts[index] = joined(one, next);
            longer = true;
        }
    }
    longer
}

fn joined(one: Shortcut, next: Shortcut) -> Shortcut {
    Shortcut {
        from: one.from,
        over: one.over.saturating_add(next.over),
        to: next.to,
    }
}
