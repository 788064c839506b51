//! Loops and forks behind their bodies.

ghost use Rattle.std.specs.Prelude.{◌≡◌, ◌++◌, IfOk};
ghost use Rattle.spec_program.specs.Frames as f;
ghost use Rattle.spec_program.specs.Reading.{under};
ghost use Rattle.moo_tree.specs.StatementView.{node_statement};
ghost use Rattle.moo_reader.specs.Views.{found_of};
ghost use Rattle.moo_reader.specs.BlockViews.{block_found, statement_found, strays_of};
ghost use Rattle.reader_frames.specs.FrameViews.{body_of};

use crate::strays::{out_of_fork, out_of_loop};
use moo_reader::block::{Block, FoundStatement, Stray};
use moo_reader::found::{Found, Parts, out_of_box};
use moo_reader::node::{Nodes, followed, under};
use moo_tree::statement::{Statement, StatementNode};
use moo_value::text::Text;
use reader_frames::frame::Body;
use std::alloc::{AllocError, Global};

// A statement of this line with the nodes of its parts.
fn statement(
    line: u64,
    node: StatementNode,
    nodes: Nodes,
    of_body: Nodes,
    strays: Vec<Stray>,
) -> Result<FoundStatement, AllocError>
    ensures { IfOk result (λ s. statement_found s ≡ record {
      tree = node_statement node;
      nodes = under line (nodes ++ of_body);
      strays = strays_of strays.items;
    }) }
{
    let nodes = nodes_of(line, nodes, of_body)?;
    Ok(FoundStatement {
        tree: Statement { node },
        nodes,
        strays,
    })
}

// The nodes of a statement of this line with those of its parts.
fn nodes_of(line: u64, nodes: Nodes, of_body: Nodes) -> Result<Nodes, AllocError>
    ensures { IfOk result (λ ns. ns ≡ under line (nodes ++ of_body)) }
{
    let nodes = followed(nodes, of_body)?;
    under(line, nodes)
}

// Over the items of a list.
fn over_list(
    alloc: Global,
    line: u64,
    variable: Text,
    list: Found,
    block: Block,
) -> Result<FoundStatement, AllocError>
    ensures { IfOk result (λ s. statement_found s ≡ f.with_body line (f.list_body variable (found_of list)) (block_found block)) }
{
    let Parts { tree, nodes, .. } = out_of_box(list);
    let Block {
        reversed: mut body,
        nodes: of_body,
        strays,
    } = block;
    body.reverse();
    let own = Some(variable.clone()?);
    let strays = out_of_loop(alloc, &own, &strays)?;
    let node = StatementNode::ForEach {
        variable,
        list: tree,
        body,
    };
    statement(line, node, nodes, of_body, strays)
}

// Over a range of numbers.
fn over_range(
    alloc: Global,
    line: u64,
    variable: Text,
    first: Found,
    last: Found,
    block: Block,
) -> Result<FoundStatement, AllocError>
    ensures { IfOk result (λ s. statement_found s ≡ f.with_body line (f.range_body variable (found_of first) (found_of last)) (block_found block)) }
{
    let Parts { tree, nodes, .. } = out_of_box(first);
    let Parts {
        tree: last,
        nodes: of_last,
        ..
    } = out_of_box(last);
    let Block {
        reversed: mut body,
        nodes: of_body,
        strays,
    } = block;
    body.reverse();
    let nodes = followed(nodes, of_last)?;
    let own = Some(variable.clone()?);
    let strays = out_of_loop(alloc, &own, &strays)?;
    let node = StatementNode::ForRange {
        variable,
        first: tree,
        last,
        body,
    };
    statement(line, node, nodes, of_body, strays)
}

// While a condition is true.
fn repeated(
    alloc: Global,
    line: u64,
    name: Option<Text>,
    condition: Found,
    block: Block,
) -> Result<FoundStatement, AllocError>
    ensures { IfOk result (λ s. statement_found s ≡ f.with_body line (f.while_body name (found_of condition)) (block_found block)) }
{
    let Parts { tree, nodes, .. } = out_of_box(condition);
    let Block {
        reversed: mut body,
        nodes: of_body,
        strays,
    } = block;
    body.reverse();
    let strays = out_of_loop(alloc, &name, &strays)?;
    let node = StatementNode::While {
        name,
        condition: tree,
        body,
    };
    statement(line, node, nodes, of_body, strays)
}

// Another task.
fn forked(
    alloc: Global,
    line: u64,
    variable: Option<Text>,
    delay: Found,
    block: Block,
) -> Result<FoundStatement, AllocError>
    ensures { IfOk result (λ s. statement_found s ≡ f.with_body line (f.fork_body variable (found_of delay)) (block_found block)) }
{
    let Parts { tree, nodes, .. } = out_of_box(delay);
    let Block {
        reversed: mut body,
        nodes: of_body,
        strays,
    } = block;
    body.reverse();
    let strays = out_of_fork(alloc, &strays)?;
    let node = StatementNode::Fork {
        variable,
        delay: tree,
        body,
    };
    statement(line, node, nodes, of_body, strays)
}

/// A loop or a fork behind its body.
pub fn with_body(
    alloc: Global,
    line: u64,
    body: Body,
    block: Block,
) -> Result<FoundStatement, AllocError>
    ensures { IfOk result (λ s. statement_found s ≡ f.with_body line (body_of body) (block_found block)) }
{
    match body {
        Body::List(variable, list) => over_list(alloc, line, variable, list, block),
        Body::Range(variable, first, last) => {
            over_range(alloc, line, variable, first, last, block)
        }
        Body::While(name, condition) => repeated(alloc, line, name, condition, block),
        Body::Fork(variable, delay) => forked(alloc, line, variable, delay, block),
    }
}
