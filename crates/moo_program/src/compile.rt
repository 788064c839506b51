//! From a tree to its code.
ghost use Rattle.std.specs.Prelude.{◌≡◌, length, map, reverse, true, IfOk, OnOk};
ghost use Rattle.std.specs.List.{list_all};
ghost use Rattle.moo_code.specs.Layout.{code_of};
ghost use Rattle.moo_program.specs.Drafting.{item_of};
ghost use Rattle.moo_program.specs.Compiled.{IsCode};
ghost use Rattle.moo_program.specs.Drafted.{IsDraft};
ghost use Rattle.moo_program.specs.Gathering.{forks_in};
ghost use Rattle.moo_program.specs.Names.{known};
ghost use Rattle.moo_program.specs.Tables.{bodies_of};
ghost use Rattle.moo_program.specs.Within.{handler_slots_in};

use crate::assembly::{Assembled, assemble};
use crate::copies::Copies;
use crate::gather::gather;
use crate::moo_bytecode::around::{Around, Bracketed};
use crate::moo_bytecode::draft::{Draft, Item};
use crate::names::count_slots;
use crate::outline::{Step, outline};
use crate::within::handlers_within;
use moo_tree::statement::{Statement, Tree};
use moo_value::text::Text;
use std::alloc::{AllocError, Global};

/// The code of a program, with the names of its variables behind those of every verb's start.
#[derive(Drop)]
pub struct Code {
    pub names: Vec<Text>,
    pub assembled: Assembled,
    pub outline: Vec<Step>,
}

/// The code of a program, and the bodies of its forks, which have code of their own.
#[derive(Drop)]
pub struct Parts {
    pub code: Code,
    pub bodies: Vec<Tree>,
}

/// The code of a tree, and copies of the bodies of its forks.
pub fn compile<C: Copies>(alloc: Global, copier: &C, tree: &Tree) -> Result<Parts, AllocError>
    ensures code { IfOk result (λ r. IsCode tree.now r.code) }
    ensures bodies { IfOk result (λ r. r.bodies.items ≡ forks_in (code_of tree.now)) }
{
    let draft = drafted(alloc, tree)?;
    let items = draft.items.as_slice();
    let tables = gather(alloc, items)?;
    let assembled = assemble(alloc, &tables, items, draft.size)?;
    let outline = outline(alloc, items)?;
    let forked = tables.bodies.as_slice();
    let bodies = copies(alloc, copier, forked)?;
    let names = tables.names.into_list();
    let own = names.as_slice();
    check_slots(&assembled, own)?;
    Ok(Parts {
        code: Code {
            names,
            assembled,
            outline,
        },
        bodies,
    })
}

// That all slots of handlers are those of names, of which these come behind the first ones.
fn check_slots(assembled: &Assembled, own: &[Text]) -> Result<(), AllocError>
    ensures { OnOk result (list_all (handler_slots_in (length (known own.now))) assembled.now.handlers.items ≡ true) }
{
    if handlers_within(assembled.handlers.as_slice(), count_slots(own)) {
        Ok(())
    } else {
        Err(AllocError)
    }
}

#[tactic(auto, using(crate::proofs::Whole::copies_next))]
fn copies<C: Copies>(
    alloc: Global,
    copier: &C,
    bodies: &[&[Statement]],
) -> Result<Vec<Tree>, AllocError>
    ensures { IfOk result (λ v. v.items ≡ bodies_of bodies.now) }
{
    let mut copies = Vec::with_capacity(alloc, bodies.len())?;
    for i in 0..bodies.len() {
        let copy = copier.copy(alloc, bodies[i])?;
        copies.push(copy)?;
    }
    Ok(copies)
}

// How many items a statement's draft has, as a guess, and for how many there is room at once.
const ITEMS: usize = 16;

const MOST_ITEMS: usize = 8192;

// The draft of a tree, from its first item to the last.
fn drafted(alloc: Global, tree: &Tree) -> Result<Draft<'_>, AllocError>
    ensures { IfOk result (λ d. IsDraft tree.now (map item_of d.items.items) d.size) }
{
    let statements = tree.statements();
    let room = statements.len().saturating_mul(ITEMS).min(MOST_ITEMS);
    let mut draft = Draft::new(alloc, room)?;
    let around = Around {
        height: 0,
        bracketed: Bracketed::Nothing,
        loops: &[],
    };
    draft.program(alloc, around, statements)?;
    turn(&mut draft.items);
    Ok(draft)
}

fn turn(items: &mut Vec<Item<'_>>)
    ensures { items.new.items ≡ reverse items.old.items }
{
    items.reverse();
}
