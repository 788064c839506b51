//! Trees of statements.

ghost use Rattle.std.specs.Prelude.{◌≡◌, ◌++◌, [], ◌∷◌, IfOk};
ghost use Rattle.spec_program.specs.Tree as tree;
ghost use Rattle.spec_program.specs.ReadPrograms as by;
ghost use Rattle.moo_tree.specs.StatementView.{node_statement, branches_of};
ghost use Rattle.moo_reader.specs.Views.{found_of, codes_found};
ghost use Rattle.moo_reader.specs.BlockViews.{statement_found, block_found, branches_found, arms_found, otherwise_of, strays_of};

use crate::block::{Arms, Block, Branches, FoundStatement, Stray};
use crate::found::{Found, FoundCodes, Parts, out_of_box};
use crate::node::{Nodes, followed, under};
use moo_tree::statement::{Arm, Branch, Statement, StatementNode};
use moo_value::text::Text;
use std::alloc::{AllocError, Global};

// A statement that holds no others.
fn simple(
    alloc: Global,
    line: u64,
    node: StatementNode,
    nodes: Nodes,
) -> Result<FoundStatement, AllocError>
    ensures { IfOk result (λ s. statement_found s ≡ by.simple line (node_statement node) nodes) }
{
    let nodes = under(line, nodes)?;
    Ok(FoundStatement {
        tree: Statement { node },
        nodes,
        strays: Vec::new(alloc),
    })
}

/// An expression whose value is dropped.
pub fn evaluated(alloc: Global, line: u64, found: Found) -> Result<FoundStatement, AllocError>
    ensures { IfOk result (λ s. statement_found s ≡ by.simple line (tree.evaluate (found_of found).tree) (found_of found).nodes) }
{
    let Parts { tree, nodes, .. } = out_of_box(found);
    simple(alloc, line, StatementNode::Evaluate(tree), nodes)
}

/// `return` with a value.
pub fn returned(alloc: Global, line: u64, found: Found) -> Result<FoundStatement, AllocError>
    ensures { IfOk result (λ s. statement_found s ≡ by.simple line (tree.give (found_of found).tree) (found_of found).nodes) }
{
    let Parts { tree, nodes, .. } = out_of_box(found);
    simple(alloc, line, StatementNode::Return(Some(tree)), nodes)
}

/// `return` without a value.
pub fn returned_zero(alloc: Global, line: u64) -> Result<FoundStatement, AllocError>
    ensures { IfOk result (λ s. statement_found s ≡ by.simple line tree.give_zero []) }
{
    simple(alloc, line, StatementNode::Return(None), Nodes::none(alloc))
}

// Strays before others.
#[tactic(auto, using(crate::proofs::Lists::strays_before))]
fn strays_before(mut strays: Vec<Stray>, others: Vec<Stray>) -> Result<Vec<Stray>, AllocError>
    ensures { IfOk result (λ v. strays_of v.items ≡ strays_of strays.items ++ strays_of others.items) }
{
    let mut all = others;
    all.append(&mut strays)?;
    Ok(all)
}

/// No statements.
pub fn no_statements(alloc: Global) -> Block
    ensures { block_found result ≡ by.no_statements }
{
    Block {
        reversed: Vec::new(alloc),
        nodes: Nodes::none(alloc),
        strays: Vec::new(alloc),
    }
}

/// A statement before others.
#[tactic(auto, using(crate::proofs::Lists::statement_before))]
pub fn and_block(statement: FoundStatement, block: Block) -> Result<Block, AllocError>
    ensures { IfOk result (λ p. block_found p ≡ by.and_block (statement_found statement) (block_found block)) }
{
    let FoundStatement {
        tree,
        nodes,
        strays,
    } = statement;
    let Block {
        reversed,
        nodes: other_nodes,
        strays: other_strays,
    } = block;
    let reversed = pushed(reversed, tree)?;
    let nodes = followed(nodes, other_nodes)?;
    let strays = strays_before(strays, other_strays)?;
    Ok(Block {
        reversed,
        nodes,
        strays,
    })
}

// Statements with one behind them.
fn pushed(
    mut statements: Vec<Statement>,
    statement: Statement,
) -> Result<Vec<Statement>, AllocError>
    ensures { IfOk result (λ v. v.items ≡ statements.items ++ statement ∷ []) }
{
    statements.push(statement)?;
    Ok(statements)
}

/// No branches, and no `else`.
pub fn no_more_branches(alloc: Global) -> Branches
    ensures { branches_found result ≡ by.no_more_branches }
{
    Branches {
        reversed: Vec::new(alloc),
        otherwise: None,
        nodes: Nodes::none(alloc),
        strays: Vec::new(alloc),
    }
}

/// What is done where no condition is true.
pub fn else_block(alloc: Global, block: Block) -> Branches
    ensures { branches_found result ≡ by.else_block (block_found block) }
{
    let Block {
        mut reversed,
        nodes,
        strays,
    } = block;
    reversed.reverse();
    Branches {
        reversed: Vec::new(alloc),
        otherwise: Some(reversed),
        nodes,
        strays,
    }
}

/// A branch before others.
#[tactic(auto, using(crate::proofs::Lists::branch_before))]
pub fn with_branch(
    condition: Found,
    block: Block,
    branches: Branches,
) -> Result<Branches, AllocError>
    ensures { IfOk result (λ b. branches_found b ≡ by.with_branch (found_of condition) (block_found block) (branches_found branches)) }
{
    let Parts { tree, nodes, .. } = out_of_box(condition);
    let Block {
        reversed: mut body,
        nodes: of_body,
        strays,
    } = block;
    let Branches {
        mut reversed,
        otherwise,
        nodes: of_others,
        strays: other_strays,
    } = branches;
    let others = followed(of_body, of_others)?;
    let nodes = followed(nodes, others)?;
    let strays = strays_before(strays, other_strays)?;
    body.reverse();
    reversed.push(Branch {
        condition: tree,
        body,
    })?;
    Ok(Branches {
        reversed,
        otherwise,
        nodes,
        strays,
    })
}

fn if_node(branches: Vec<Branch>, otherwise: Option<Vec<Statement>>) -> StatementNode
    ensures { node_statement result ≡ tree.branch (branches_of branches.items) (otherwise_of otherwise) }
{
    match otherwise {
        Some(otherwise) => StatementNode::If {
            branches,
            otherwise: Some(otherwise),
        },
        None => StatementNode::If {
            branches,
            otherwise: None,
        },
    }
}

/// An `if`.
pub fn branch_of(line: u64, branches: Branches) -> Result<FoundStatement, AllocError>
    ensures { IfOk result (λ s. statement_found s ≡ by.branch_of line (branches_found branches)) }
{
    let Branches {
        mut reversed,
        otherwise,
        nodes,
        strays,
    } = branches;
    let nodes = under(line, nodes)?;
    reversed.reverse();
    Ok(FoundStatement {
        tree: Statement {
            node: if_node(reversed, otherwise),
        },
        nodes,
        strays,
    })
}

/// No handlers.
pub fn no_more_arms(alloc: Global) -> Arms
    ensures { arms_found result ≡ by.no_more_arms }
{
    Arms {
        reversed: Vec::new(alloc),
        nodes: Nodes::none(alloc),
        strays: Vec::new(alloc),
    }
}

/// A handler before others.
#[tactic(auto, using(crate::proofs::Lists::arm_before))]
pub fn with_arm(
    variable: Option<Text>,
    codes: FoundCodes,
    block: Block,
    arms: Arms,
) -> Result<Arms, AllocError>
    ensures { IfOk result (λ a. arms_found a ≡ by.with_arm variable (codes_found codes) (block_found block) (arms_found arms)) }
{
    let FoundCodes { tree, nodes } = codes;
    let Block {
        reversed: mut body,
        nodes: of_body,
        strays,
    } = block;
    let Arms {
        mut reversed,
        nodes: of_others,
        strays: other_strays,
    } = arms;
    let others = followed(of_body, of_others)?;
    let nodes = followed(nodes, others)?;
    let strays = strays_before(strays, other_strays)?;
    body.reverse();
    reversed.push(Arm {
        variable,
        codes: tree,
        body,
    })?;
    Ok(Arms {
        reversed,
        nodes,
        strays,
    })
}

/// A `try` with handlers.
pub fn guarded_of(line: u64, block: Block, arms: Arms) -> Result<FoundStatement, AllocError>
    ensures { IfOk result (λ s. statement_found s ≡ by.guarded_of line (block_found block) (arms_found arms)) }
{
    let Block {
        reversed: mut body,
        nodes,
        strays,
    } = block;
    let Arms {
        reversed: mut handlers,
        nodes: of_handlers,
        strays: other_strays,
    } = arms;
    let nodes = followed(nodes, of_handlers)?;
    let strays = strays_before(strays, other_strays)?;
    let nodes = under(line, nodes)?;
    body.reverse();
    handlers.reverse();
    Ok(FoundStatement {
        tree: Statement {
            node: StatementNode::TryExcept {
                body,
                arms: handlers,
            },
        },
        nodes,
        strays,
    })
}

/// A `try` with a finally part.
pub fn finished_of(line: u64, block: Block, cleanup: Block) -> Result<FoundStatement, AllocError>
    ensures { IfOk result (λ s. statement_found s ≡ by.finished_of line (block_found block) (block_found cleanup)) }
{
    let Block {
        reversed: mut body,
        nodes,
        strays,
    } = block;
    let Block {
        reversed: mut behind,
        nodes: of_cleanup,
        strays: other_strays,
    } = cleanup;
    let nodes = followed(nodes, of_cleanup)?;
    let strays = strays_before(strays, other_strays)?;
    let nodes = under(line, nodes)?;
    body.reverse();
    behind.reverse();
    Ok(FoundStatement {
        tree: Statement {
            node: StatementNode::TryFinally {
                body,
                cleanup: behind,
            },
        },
        nodes,
        strays,
    })
}
