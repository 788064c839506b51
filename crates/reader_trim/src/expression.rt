//! Arguments, items and codes that were read, with the few nodes that tell where they are too deep.

ghost use Rattle.std.specs.Prelude.{IfOk};
ghost use Rattle.spec_program.specs.Similar.{SimilarArguments, SimilarItems, SimilarCodes};
ghost use Rattle.moo_reader.specs.Views.{arguments_found, items_found, codes_found};

use crate::shallow::{shallow_codes, shallow_list};
use moo_reader::found::{Arguments, FoundCodes, Items};
use moo_reader::node::kept;
use std::alloc::{AllocError, Global};

/// Arguments that may stand in the place of these.
pub fn trimmed_arguments(alloc: Global, arguments: Arguments) -> Result<Arguments, AllocError>
    ensures { IfOk result (λ es. SimilarArguments (arguments_found arguments) (arguments_found es)) }
{
    let Arguments { reversed, nodes } = arguments;
    let few = kept(alloc, &nodes)?;
    let reversed = shallow_list(alloc, reversed, &nodes);
    Ok(Arguments {
        reversed,
        nodes: few,
    })
}

/// Items that may stand in the place of these.
pub fn trimmed_items(alloc: Global, items: Items) -> Result<Items, AllocError>
    ensures { IfOk result (λ f. SimilarItems (items_found items) (items_found f)) }
{
    let Items {
        allowed,
        arguments,
        reversed,
        default_nodes,
    } = items;
    let arguments = trimmed_arguments(alloc, arguments)?;
    let few = kept(alloc, &default_nodes)?;
    let reversed = shallow_list(alloc, reversed, &default_nodes);
    Ok(Items {
        allowed,
        arguments,
        reversed,
        default_nodes: few,
    })
}

/// Codes that may stand in the place of these.
pub fn trimmed_codes(alloc: Global, codes: FoundCodes) -> Result<FoundCodes, AllocError>
    ensures { IfOk result (λ c. SimilarCodes (codes_found codes) (codes_found c)) }
{
    let FoundCodes { tree, nodes } = codes;
    let few = kept(alloc, &nodes)?;
    let tree = shallow_codes(tree, &nodes);
    Ok(FoundCodes { tree, nodes: few })
}
