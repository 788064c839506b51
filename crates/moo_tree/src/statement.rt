//! Statements and programs.
ghost use Rattle.std.specs.Prelude.{◌≡◌};
ghost use Rattle.moo_tree.specs.StatementView.{program_of};

use crate::expression::{Codes, Expression};
use moo_value::text::Text;
use std::marker::Model;

/// A statement.
#[cycle(statement)]
#[derive(Drop)]
pub struct Statement {
    pub node: StatementNode,
}

/// What a statement is. Names are in lower case.
#[cycle(statement)]
#[derive(Drop)]
pub enum StatementNode {
    /// An expression whose value is dropped.
    Evaluate(Expression),
    /// `return`, with or without a value.
    Return(Option<Expression>),
    /// `if`: its branches, of which there is one at least, and what is done where no condition is true.
    If {
        branches: Vec<Branch>,
        otherwise: Option<Vec<Statement>>,
    },
    /// `for x in (list)`.
    ForEach {
        variable: Text,
        list: Expression,
        body: Vec<Statement>,
    },
    /// `for x in [first..last]`.
    ForRange {
        variable: Text,
        first: Expression,
        last: Expression,
        body: Vec<Statement>,
    },
    /// `while`, with its name if it has one.
    While {
        name: Option<Text>,
        condition: Expression,
        body: Vec<Statement>,
    },
    /// `fork`: the variable for the new task's id, if there is one, the delay and the task's statements.
    Fork {
        variable: Option<Text>,
        delay: Expression,
        body: Vec<Statement>,
    },
    /// `try` with handlers, of which there is one at least.
    TryExcept {
        body: Vec<Statement>,
        arms: Vec<Arm>,
    },
    /// `try` with statements that are done whatever the body did.
    TryFinally {
        body: Vec<Statement>,
        cleanup: Vec<Statement>,
    },
    /// `break`, of the loop of this name or of the innermost one.
    Break(Option<Text>),
    /// `continue`, of the loop of this name or of the innermost one.
    Continue(Option<Text>),
}

/// A condition of an `if` or `elseif`, and what is done where it is the first that is true.
#[cycle(statement)]
#[derive(Drop)]
pub struct Branch {
    pub condition: Expression,
    pub body: Vec<Statement>,
}

/// A handler of a `try`: the variable for the error, if there is one, the codes that it takes, and its statements.
#[cycle(statement)]
#[derive(Drop)]
pub struct Arm {
    pub variable: Option<Text>,
    pub codes: Codes,
    pub body: Vec<Statement>,
}

impl Model for Statement {
    ghost use Rattle.spec_program.specs.Tree.{Statement as Meant};
    ghost use Rattle.spec_program.specs.TreeCode.{statement_code};
    ghost use Rattle.moo_tree.specs.Depth.{statement_depth};

    ghost Value = { Meant };

    ghost coded = { statement_code };

    ghost use Rattle.moo_tree.specs.StatementView.{node_statement};

    ghost view = { λ a. node_statement a.node };

    ghost size = { statement_depth };

    ghost use Rattle.moo_tree.specs.StatementFalls.{statement_falls};

    ghost size_decreases = { λ a h. statement_falls a.node };
}

/// The source tree of a program.
pub struct Tree {
    statements: Vec<Statement>,
}

// Written out, so that letting go of all statements is proved here and not in each crate that lets a tree go.
impl Drop for Tree {
    fn drop(self) {
        let Tree {
            statements: _statements,
        } = self;
    }
}

impl Model for Tree {
    ghost use Rattle.spec_program.specs.Tree.{Program};
    ghost use Rattle.spec_program.specs.TreeCode.{program_code};

    ghost Value = { Program };

    ghost coded = { program_code };

    ghost use Rattle.moo_tree.specs.StatementView.{program_of as statements_of};

    ghost view = { λ a. statements_of a.statements.items };
}

impl Tree {
    /// The program of these statements.
    pub fn new(statements: Vec<Statement>) -> Tree
        ensures { result ≡ program_of statements.items }
    {
        Tree { statements }
    }

    /// Its statements, in order.
    pub fn statements(&self) -> &[Statement]
        ensures { program_of result.now ≡ self.now }
    {
        self.statements.as_slice()
    }
}
