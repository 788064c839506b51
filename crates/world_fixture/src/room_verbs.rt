//! The verbs of the rooms in each of which a player is alone.
ghost use Rattle.std.specs.Prelude.{◌≡◌, [], ◌∷◌, replicate, IfOk, IsTrue};
ghost use Rattle.spec_program.specs.Tree.{binary, evaluate};
ghost use Rattle.spec_value.specs.Operators.{plus};
ghost use Rattle.spec_fixture.specs.Fixture.{plain_verb as meant_verb};
ghost use Rattle.spec_value.specs.Datum.{is_text};
ghost use Rattle.world_fixture.specs.Rooms as meant;

use crate::room_commands::count;
use crate::verbs::{plain_verb, single};
use moo_tree::expression::{Expression, ExpressionNode};
use moo_tree::statement::{Statement, StatementNode, Tree};
use moo_value::operator::BinaryOperator;
use moo_value::value::Value;
use std::alloc::{AllocError, Global};
use view::verb::{Verb, Verbs};

/// How often the verb `total` adds. A tick more is its `return`.
const ADDITIONS: u32 = 999;

/// How often the verb `endless` adds: for each tick of a command, so that none is left for its `return`.
const TOO_MANY: u32 = 30_000;

// The verbs `count` and `total`.
pub(crate) fn counting_verbs(alloc: Global) -> Result<Verbs, AllocError>
    ensures { IfOk result (λ vs. vs ≡ meant.counting_verbs) }
{
    let mut verbs = Vec::with_capacity(alloc, 2)?;
    verbs.push(count(alloc)?)?;
    verbs.push(adding_verb(alloc, "total", ADDITIONS)?)?;
    Verbs::new(alloc, verbs)
}

// The verb `endless`.
pub(crate) fn endless_verbs(alloc: Global) -> Result<Verbs, AllocError>
    ensures { IfOk result (λ vs. vs ≡ meant.endless_verb ∷ []) }
{
    single(alloc, adding_verb(alloc, "endless", TOO_MANY)?)
}

fn adding_verb(alloc: Global, names: &str, additions: u32) -> Result<Verb, AllocError>
    requires { IsTrue (is_text names.now) }
    ensures { IfOk result (λ v. v ≡ meant_verb names.now (meant.adding additions)) }
{
    plain_verb(alloc, names, adding(alloc, additions)?)
}

// 1 + 1; so many times, and then return 1;
#[tactic(auto, using(crate::proofs::Adding::added, crate::proofs::Adding::one_more))]
fn adding(alloc: Global, additions: u32) -> Result<Tree, AllocError>
    ensures { IfOk result (λ t. t ≡ meant.adding additions) }
{
    let mut statements = Vec::new(alloc);
    for _addition in 0..additions {
        statements.push(addition(alloc)?)?;
    }
    statements.push(Statement {
        node: StatementNode::Return(Some(one())),
    })?;
    Ok(Tree::new(statements))
}

// 1 + 1;
fn addition(alloc: Global) -> Result<Statement, AllocError>
    ensures { IfOk result (λ s. s ≡ evaluate (binary plus meant.one meant.one)) }
{
    let sum = Expression {
        node: ExpressionNode::Binary(
            BinaryOperator::Plus,
            Box::new(alloc, one())?,
            Box::new(alloc, one())?,
        ),
    };
    Ok(Statement {
        node: StatementNode::Evaluate(sum),
    })
}

fn one() -> Expression
    ensures { result ≡ meant.one }
{
    Expression {
        node: ExpressionNode::Literal(Value::integer(1)),
    }
}
