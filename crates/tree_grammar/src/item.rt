//! The items of a scatter, as far as their kinds go.
ghost use Rattle.std.specs.Prelude.{◌≡◌, ◌&&◌};
ghost use Rattle.spec_program.specs.Trees as spec;
ghost use Rattle.moo_tree.specs.ExpressionView.{items_of};
ghost use Rattle.tree_grammar.specs.Parts.{one_is_rest};

use moo_tree::expression::Item;

/// Whether a scatter has an item, and one at most that takes the rest.
pub fn are_items(items: &[Item]) -> bool
    ensures { result ≡ (spec.has_item (items_of items.now) && spec.rest_once (items_of items.now)) }
{
    has_item(items) && rest_once(items)
}

fn has_item(items: &[Item]) -> bool
    ensures { result ≡ spec.has_item (items_of items.now) }
{
    match items {
        [] => false,
        [_, ..] => true,
    }
}

fn rest_once(items: &[Item]) -> bool
    ensures { result ≡ spec.rest_once (items_of items.now) }
{
    for (index, item) in items.iter().enumerate() {
        if is_rest(item) {
            return !takes_rest(&items[index + 1..]);
        }
    }
    true
}

fn takes_rest(items: &[Item]) -> bool
    ensures { result ≡ spec.takes_rest (items_of items.now) }
{
    for item in items {
        if is_rest(item) {
            return true;
        }
    }
    false
}

fn is_rest(item: &Item) -> bool
    ensures { result ≡ one_is_rest item.now }
{
    match item {
        Item::Rest(_) => true,
        Item::Required(_) => false,
        Item::Optional(_) => false,
        Item::Default(_, _) => false,
    }
}
