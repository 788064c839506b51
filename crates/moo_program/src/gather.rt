//! The names and the bodies that the instructions of a draft point into.
ghost use Rattle.std.specs.Prelude.{◌≡◌, ◌∷◌, ◌++◌, [], map, IfOk, OnOk};
ghost use Rattle.moo_code.specs.Instruction.{with_handlers};
ghost use Rattle.moo_code.specs.Layout.{shape_of, slots_of};
ghost use Rattle.moo_code.specs.Names.{with_names, operation_names, handler_names, shape_names, slot_name, some_name, starting_names};
ghost use Rattle.moo_tree.specs.ExpressionView.{items_of};
ghost use Rattle.moo_program.specs.Drafting.{item_of, operation_of, name_of, row_of, sign_of};
ghost use Rattle.moo_program.specs.Gathering.{draft_names, draft_handled, draft_bodies, forks_before};
ghost use Rattle.moo_program.specs.Names.{known};
ghost use Rattle.moo_program.specs.Tables.{bodies_of};

use crate::moo_bytecode::around::Bracketed;
use crate::moo_bytecode::draft::Item;
use crate::moo_bytecode::operation::{HandlerRow, Operation, Sign};
use crate::names::Names;
use crate::tables::Tables;
use moo_tree::expression::{Item as ScatterItem, Target, TargetNode};
use moo_tree::statement::Statement;
use std::alloc::{AllocError, Global};

/// The names of a draft, those of its operations before those of its handlers, and the bodies of its forks.
pub fn gather<'a>(alloc: Global, items: &[Item<'a>]) -> Result<Tables<'a>, AllocError>
    ensures names { IfOk result (λ t. known t.names ≡ draft_handled (draft_names starting_names (map item_of items.now)) (map item_of items.now)) }
    ensures bodies { IfOk result (λ t. bodies_of t.bodies.items ≡ draft_bodies (map item_of items.now)) }
{
    let mut names = Names::new(alloc);
    mention_operations(&mut names, items)?;
    mention_handlers(&mut names, items)?;
    let bodies = bodies(alloc, items)?;
    Ok(Tables { names, bodies })
}

// The names of operations.
fn mention_operations<'a>(names: &mut Names<'a>, items: &[Item<'a>]) -> Result<(), AllocError>
    ensures { OnOk result (known names.new ≡ draft_names (known names.old) (map item_of items.now)) }
{
    for i in 0..items.len() {
        mention_operation(names, &items[i])?;
    }
    Ok(())
}

#[tactic(auto, unfolding(crate::specs::Gathering::draft_names))]
fn mention_operation<'a>(names: &mut Names<'a>, item: &Item<'a>) -> Result<(), AllocError>
    ensures { OnOk result (known names.new ≡ draft_names (known names.old) (item_of item.now ∷ [])) }
{
    match item {
        Item::Own(operation) => mention(names, operation),
        Item::Part(_, _, _) | Item::Close(_, _) | Item::Gap => Ok(()),
    }
}

// The names of handlers.
fn mention_handlers<'a>(names: &mut Names<'a>, items: &[Item<'a>]) -> Result<(), AllocError>
    ensures { OnOk result (known names.new ≡ draft_handled (known names.old) (map item_of items.now)) }
{
    for i in 0..items.len() {
        mention_handler(names, &items[i])?;
    }
    Ok(())
}

#[tactic(auto, unfolding(crate::specs::Gathering::draft_handled))]
fn mention_handler<'a>(names: &mut Names<'a>, item: &Item<'a>) -> Result<(), AllocError>
    ensures { OnOk result (known names.new ≡ draft_handled (known names.old) (item_of item.now ∷ [])) }
{
    match item {
        Item::Close(_, Some(caught)) => mention_sign(names, &caught.sign),
        Item::Own(_) | Item::Part(_, _, _) | Item::Close(_, None) | Item::Gap => Ok(()),
    }
}

// The bodies of forks.
fn bodies<'a>(alloc: Global, items: &[Item<'a>]) -> Result<Vec<&'a [Statement]>, AllocError>
    ensures { IfOk result (λ v. bodies_of v.items ≡ draft_bodies (map item_of items.now)) }
{
    let mut bodies = Vec::new(alloc);
    for i in 0..items.len() {
        body(&mut bodies, &items[i])?;
    }
    Ok(bodies)
}

#[tactic(auto, unfolding(crate::specs::Gathering::draft_bodies))]
fn body<'a>(bodies: &mut Vec<&'a [Statement]>, item: &Item<'a>) -> Result<(), AllocError>
    ensures { OnOk result (bodies_of bodies.new.items ≡ bodies_of bodies.old.items ++ draft_bodies (item_of item.now ∷ [])) }
{
    match item {
        Item::Own(operation) => fork_body(bodies, operation),
        Item::Part(_, _, _) | Item::Close(_, _) | Item::Gap => Ok(()),
    }
}

fn fork_body<'a>(
    bodies: &mut Vec<&'a [Statement]>,
    operation: &Operation<'a>,
) -> Result<(), AllocError>
    ensures { OnOk result (bodies_of bodies.new.items ≡ bodies_of bodies.old.items ++ forks_before (operation_of operation.now) []) }
{
    if let Operation::StartFork(_, body) = operation {
        bodies.push(*body)?;
    }
    Ok(())
}

// The variables of an operation.
#[tactic(auto, using(crate::proofs::Gathered::no_names))]
fn mention<'a>(names: &mut Names<'a>, operation: &Operation<'a>) -> Result<(), AllocError>
    ensures { OnOk result (known names.new ≡ with_names (known names.old) (operation_names (operation_of operation.now))) }
{
    match operation {
        Operation::Load(name)
        | Operation::StoreDefault(name)
        | Operation::FirstItem(name)
        | Operation::NextItem(name)
        | Operation::FirstOfRange(name)
        | Operation::NextOfRange(name)
        | Operation::StartFork(Some(name), _) => names.mention(name),
        Operation::LengthOf(Bracketed::Target(target, _)) | Operation::Store(target) => {
            mention_target(names, target)
        }
        Operation::Scatter(items) => mention_items(names, items),
        _ => Ok(()),
    }
}

// The variable of a target.
#[tactic(auto, using(crate::proofs::Gathered::no_names))]
fn mention_target<'a>(names: &mut Names<'a>, target: &'a Target) -> Result<(), AllocError>
    ensures { OnOk result (known names.new ≡ with_names (known names.old) (shape_names (shape_of target.now))) }
{
    match &target.node {
        TargetNode::Variable(name) => names.mention(name),
        TargetNode::Property(_, _) => Ok(()),
        TargetNode::Index(target, _) | TargetNode::Range(target, _, _) => {
            mention_target(names, target)
        }
    }
}

// The variables of a scattering assignment.
fn mention_items<'a>(names: &mut Names<'a>, items: &'a [ScatterItem]) -> Result<(), AllocError>
    ensures { OnOk result (known names.new ≡ with_names (known names.old) (map slot_name (slots_of (items_of items.now)))) }
{
    for i in 0..items.len() {
        mention_item(names, &items[i])?;
    }
    Ok(())
}

fn mention_item<'a>(names: &mut Names<'a>, item: &'a ScatterItem) -> Result<(), AllocError>
    ensures { OnOk result (known names.new ≡ with_names (known names.old) (map slot_name (slots_of (items_of (item.now ∷ []))))) }
{
    match item {
        ScatterItem::Required(name)
        | ScatterItem::Optional(name)
        | ScatterItem::Rest(name)
        | ScatterItem::Default(name, _) => names.mention(name),
    }
}

// The variables of handlers.
#[tactic(auto, using(crate::proofs::Gathered::no_names))]
fn mention_sign<'a>(names: &mut Names<'a>, sign: &Sign<'a>) -> Result<(), AllocError>
    ensures { OnOk result (known names.new ≡ with_names (known names.old) (handler_names (sign_of sign.now))) }
{
    match sign {
        Sign::Handlers(rows) => mention_rows(names, rows.as_slice()),
        _ => Ok(()),
    }
}

fn mention_rows<'a>(names: &mut Names<'a>, rows: &[HandlerRow<'a>]) -> Result<(), AllocError>
    ensures { OnOk result (known names.new ≡ with_names (known names.old) (handler_names (with_handlers (map row_of rows.now)))) }
{
    for i in 0..rows.len() {
        mention_row(names, rows[i])?;
    }
    Ok(())
}

#[tactic(auto, using(crate::proofs::Gathered::no_names))]
fn mention_row<'a>(names: &mut Names<'a>, row: HandlerRow<'a>) -> Result<(), AllocError>
    ensures { OnOk result (known names.new ≡ with_names (known names.old) (some_name (name_of row.entry.variable))) }
{
    match row.variable {
        Some(name) => names.mention(name),
        None => Ok(()),
    }
}
