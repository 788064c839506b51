//! Items of braces, as those of a list and as those of a scatter.

ghost use Rattle.std.specs.Prelude.{◌≡◌, [], IfOk, if◌then◌else◌};
ghost use Rattle.spec_value.specs.Datum.{fold_case};
ghost use Rattle.spec_program.specs.Tree as tree;
ghost use Rattle.spec_program.specs.ReadExpressions as by;
ghost use Rattle.spec_program.specs.Frames.{with_item};
ghost use Rattle.moo_tree.specs.ExpressionView.{items_of};
ghost use Rattle.moo_reader.specs.Views.{found_of, operand_of, arguments_found, allowed_of, items_found, braces_of, item_of};

use crate::build::{listing, no_arguments, with_argument};
use crate::found::{
    Allowed, Arguments, BracedItem, Braces, Found, Items, Operand, Parts, Scattering, as_operand,
    out_of_box,
};
use crate::node::{Nodes, followed};
use crate::start::variable_found;
use crate::text::lower_case;
use moo_tree::expression::Item;
use moo_value::text::Text;
use std::alloc::{AllocError, Global};

/// No items.
pub fn no_more(alloc: Global, allowed: Allowed) -> Items
    ensures { items_found result ≡ by.no_more (allowed_of allowed) }
{
    Items {
        allowed,
        arguments: no_arguments(alloc),
        reversed: Vec::new(alloc),
        default_nodes: Nodes::none(alloc),
    }
}

// Arguments with a variable before them.
fn with_variable(
    alloc: Global,
    spliced: bool,
    word: &Text,
    line: u64,
    arguments: Arguments,
) -> Result<Arguments, AllocError>
    ensures { IfOk result (λ es. arguments_found es ≡ by.with_argument spliced (by.found_at line (tree.variable (fold_case word.now)) [])
        (arguments_found arguments)) }
{
    let found = variable_found(alloc, line, word)?;
    with_argument(spliced, found, arguments)
}

#[tactic(auto, using(crate::proofs::Lists::item_before))]
fn with_required(alloc: Global, word: Text, line: u64, items: Items) -> Result<Items, AllocError>
    ensures { IfOk result (λ f. items_found f ≡ by.with_required word line (items_found items)) }
{
    let Items {
        allowed,
        arguments,
        mut reversed,
        default_nodes,
    } = items;
    let arguments = with_variable(alloc, false, &word, line, arguments)?;
    let name = lower_case(alloc, &word)?;
    reversed.push(Item::Required(name))?;
    Ok(Items {
        allowed,
        arguments,
        reversed,
        default_nodes,
    })
}

#[tactic(auto, using(crate::proofs::Lists::item_before))]
fn with_rest(alloc: Global, word: Text, line: u64, items: Items) -> Result<Items, AllocError>
    ensures { IfOk result (λ f. items_found f ≡ by.with_rest word line (items_found items)) }
{
    let Items {
        allowed,
        arguments,
        mut reversed,
        default_nodes,
    } = items;
    let arguments = with_variable(alloc, true, &word, line, arguments)?;
    let name = lower_case(alloc, &word)?;
    reversed.push(Item::Rest(name))?;
    Ok(Items {
        allowed,
        arguments,
        reversed,
        default_nodes,
    })
}

#[tactic(auto, using(crate::proofs::Lists::item_before))]
fn with_optional(alloc: Global, word: Text, items: Items) -> Result<Items, AllocError>
    ensures { IfOk result (λ f. items_found f ≡ by.with_optional word (items_found items)) }
{
    let Items {
        allowed,
        arguments,
        mut reversed,
        default_nodes,
    } = items;
    let name = lower_case(alloc, &word)?;
    reversed.push(Item::Optional(name))?;
    Ok(Items {
        allowed,
        arguments,
        reversed,
        default_nodes,
    })
}

#[tactic(auto, using(crate::proofs::Lists::item_before))]
fn with_default(alloc: Global, word: Text, found: Found, items: Items) -> Result<Items, AllocError>
    ensures { IfOk result (λ f. items_found f ≡ by.with_default word (found_of found) (items_found items)) }
{
    let Items {
        allowed,
        arguments,
        mut reversed,
        default_nodes,
    } = items;
    let Parts { tree, nodes, .. } = out_of_box(found);
    let default_nodes = followed(nodes, default_nodes)?;
    let name = lower_case(alloc, &word)?;
    reversed.push(Item::Default(name, tree))?;
    Ok(Items {
        allowed,
        arguments,
        reversed,
        default_nodes,
    })
}

fn with_expression(spliced: bool, found: Found, items: Items) -> Result<Items, AllocError>
    ensures { IfOk result (λ f. items_found f ≡ by.with_expression spliced (found_of found) (items_found items)) }
{
    let Items {
        allowed,
        arguments,
        reversed,
        default_nodes,
    } = items;
    let arguments = with_argument(spliced, found, arguments)?;
    Ok(Items {
        allowed,
        arguments,
        reversed,
        default_nodes,
    })
}

/// Items with one before them.
pub fn with_item(alloc: Global, item: BracedItem, items: Items) -> Result<Items, AllocError>
    ensures { IfOk result (λ f. items_found f ≡ with_item (item_of item) (items_found items)) }
{
    match item {
        BracedItem::Bare(word, line) => with_required(alloc, word, line, items),
        BracedItem::BareRest(word, line) => with_rest(alloc, word, line, items),
        BracedItem::BareOptional(word) => with_optional(alloc, word, items),
        BracedItem::WithDefault(word, found) => with_default(alloc, word, found, items),
        BracedItem::Other(spliced, found) => with_expression(spliced, found, items),
    }
}

// What braces may be beside a list.
fn braces_by(
    alloc: Global,
    allowed: Allowed,
    items: Vec<Item>,
    nodes: Nodes,
) -> Result<Braces, AllocError>
    ensures { IfOk result (λ b. braces_of b ≡ (if allowed.as_scatter then (if allowed.as_list then by.perhaps_scatter (items_of items.items)
        nodes else by.surely_scatter (items_of items.items) nodes) else by.no_braces)) }
{
    if !allowed.as_scatter {
        return Ok(Braces::NoScatter);
    }
    let scattering = Box::new(alloc, Scattering { items, nodes })?;
    if allowed.as_list {
        Ok(Braces::PerhapsScatter(scattering))
    } else {
        Ok(Braces::SurelyScatter(scattering))
    }
}

/// Braces around items.
pub fn braces_found(alloc: Global, line: u64, items: Items) -> Result<Operand, AllocError>
    ensures { IfOk result (λ o. operand_of o ≡ by.braces_found line (items_found items)) }
{
    let Items {
        allowed,
        arguments,
        mut reversed,
        default_nodes,
    } = items;
    let found = listing(alloc, line, arguments)?;
    reversed.reverse();
    let braces = braces_by(alloc, allowed, reversed, default_nodes)?;
    Ok(as_operand(found, false, false, braces))
}
