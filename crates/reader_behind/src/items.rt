//! Behind an item of braces, and behind items.

ghost use Rattle.std.specs.Prelude.{◌≡◌, IfOk};
ghost use Rattle.spec_program.specs.Frames.{some_items_read};
ghost use Rattle.spec_reader.specs.Behind.{behind, found_by};
ghost use Rattle.moo_reader.specs.Views.{found_of, items_found};
ghost use Rattle.reader_frames.specs.LeftView.{left_of};
ghost use Rattle.reader_frames.specs.FrameViews.{all_begun, within_items, items_begun};
ghost use Rattle.reader_frames.specs.StateView.{state_of};

use moo_reader::found::{BracedItem, Found, Items};
use moo_reader::items::{braces_found, with_item};
use reader_frames::allowed::{list_alone, scatter_alone};
use reader_frames::begun::Begun;
use reader_frames::ends::items_on;
use reader_frames::frame::{ItemsFrame, WithinItems};
use reader_frames::left::Left;
use reader_frames::state::{Next, Part, State};
use std::alloc::{AllocError, Global};

/// Behind an expression that is a part of an item.
pub fn behind_within_items(
    alloc: Global,
    within: WithinItems,
    found: Found,
    begun: Box<Begun>,
    left: Left,
) -> Result<State, AllocError>
    ensures { IfOk result (λ s. state_of s ≡ behind (within_items within) (all_begun begun.value some_items_read) (found_of found) (left_of left)) }
{
    match within {
        WithinItems::Value {
            brackets,
            allowed,
            spliced,
        } => {
            let item = BracedItem::Other(spliced, found);
            items_on(alloc, brackets, list_alone(allowed), item, begun, left)
        }
        WithinItems::Default {
            brackets,
            allowed,
            name,
        } => {
            let item = BracedItem::WithDefault(name, found);
            items_on(alloc, brackets, scatter_alone(allowed), item, begun, left)
        }
    }
}

/// Behind items.
pub fn behind_items(
    alloc: Global,
    frame: ItemsFrame,
    items: Items,
    begun: Box<Begun>,
    left: Left,
) -> Result<State, AllocError>
    ensures { IfOk result (λ s. state_of s ≡ found_by (items_begun frame (all_begun begun.value)) (items_found items) (left_of left)) }
{
    match frame {
        ItemsFrame::Behind(item) => {
            let items = with_item(alloc, item, items)?;
            let next = Next::Found(Part::Items(Box::new(alloc, items)?));
            Ok(State { next, begun, left })
        }
        ItemsFrame::Braces { line } => {
            let operand = braces_found(alloc, line, items)?;
            let next = Next::Found(Part::Operand(operand));
            Ok(State { next, begun, left })
        }
    }
}
