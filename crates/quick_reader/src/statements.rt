//! Statements of what was read last.
use crate::limits::GREATEST_HEIGHT;
use crate::reader::{Found, Reader, cut_off, put_behind};
use crate::several::CodesRead;
use moo_tree::statement::{Arm, Branch, Statement, StatementNode};
use moo_value::text::Text;

impl Reader<'_> {
    // Keeps a statement.
    #[inline(always)]
    fn statement(&mut self, node: StatementNode) {
        let put = put_behind(&mut self.statements, Statement { node });
        self.kept(put);
    }

    /// Takes so many statements.
    pub fn block(&mut self, count: usize) -> Vec<Statement> {
        let cut = cut_off(&mut self.statements, count);
        self.many(cut)
    }

    // The name that a word is, if there is one.
    fn name_of(&mut self, word: Option<&[u8]>) -> Option<Text> {
        match word {
            Some(word) => self.name_text(word),
            None => None,
        }
    }

    /// Refuses a text with an expression of this height within so many statements, if that is too high.
    pub fn fit(&mut self, height: usize, depth: usize) {
        if height.saturating_add(depth) >= GREATEST_HEIGHT {
            self.refuse();
        }
    }

    /// How high the last expression is.
    pub fn height(&self) -> usize {
        match self.expressions.last() {
            Some(found) => found.height,
            None => 0,
        }
    }

    /// The last expression, whose value is dropped.
    pub fn evaluate(&mut self) {
        if let Some(Found { expression, .. }) = self.expressions.pop() {
            self.statement(StatementNode::Evaluate(expression));
        }
    }

    /// `return` with the last expression.
    pub fn return_value(&mut self) {
        if let Some(Found { expression, .. }) = self.expressions.pop() {
            self.statement(StatementNode::Return(Some(expression)));
        }
    }

    /// `return` alone.
    pub fn return_nothing(&mut self) {
        self.statement(StatementNode::Return(None));
    }

    /// `break`
    pub fn break_loop(&mut self, name: Option<&[u8]>) {
        let name = self.name_of(name);
        self.statement(StatementNode::Break(name));
    }

    /// `continue`
    pub fn continue_loop(&mut self, name: Option<&[u8]>) {
        let name = self.name_of(name);
        self.statement(StatementNode::Continue(name));
    }

    /// Keeps a branch of so many statements, under the last expression.
    pub fn branch(&mut self, count: usize) {
        let body = self.block(count);
        if let Some(Found { expression, .. }) = self.expressions.pop() {
            let branch = Branch {
                condition: expression,
                body,
            };
            let put = put_behind(&mut self.branches, branch);
            self.kept(put);
        }
    }

    /// `if` with so many branches and, if there are any, so many other statements.
    pub fn branching(&mut self, count: usize, others: Option<usize>) {
        let otherwise = match others {
            Some(count) => Some(self.block(count)),
            None => None,
        };
        let cut = cut_off(&mut self.branches, count);
        let branches = self.many(cut);
        self.statement(StatementNode::If {
            branches,
            otherwise,
        });
    }

    /// `for` over a list, with so many statements.
    pub fn for_each(&mut self, variable: &[u8], count: usize) {
        let body = self.block(count);
        if let Some(variable) = self.name_text(variable) {
            if let Some(Found { expression, .. }) = self.expressions.pop() {
                self.statement(StatementNode::ForEach {
                    variable,
                    list: expression,
                    body,
                });
            }
        }
    }

    /// `for` over a range, with so many statements.
    pub fn for_range(&mut self, variable: &[u8], count: usize) {
        if self.expressions.len() < 2 {
            return;
        }
        let Found {
            expression: last,
            ..
        } = self.expressions.take_last();
        let Found {
            expression: first,
            ..
        } = self.expressions.take_last();
        let body = self.block(count);
        if let Some(variable) = self.name_text(variable) {
            self.statement(StatementNode::ForRange {
                variable,
                first,
                last,
                body,
            });
        }
    }

    /// `while`, with so many statements.
    pub fn while_loop(&mut self, name: Option<&[u8]>, count: usize) {
        let body = self.block(count);
        let name = self.name_of(name);
        if let Some(Found { expression, .. }) = self.expressions.pop() {
            self.statement(StatementNode::While {
                name,
                condition: expression,
                body,
            });
        }
    }

    /// `fork`, with so many statements.
    pub fn fork(&mut self, variable: Option<&[u8]>, count: usize) {
        let body = self.block(count);
        let variable = self.name_of(variable);
        if let Some(Found { expression, .. }) = self.expressions.pop() {
            self.statement(StatementNode::Fork {
                variable,
                delay: expression,
                body,
            });
        }
    }

    /// Keeps a handler of so many statements.
    pub fn arm(&mut self, variable: Option<&[u8]>, codes: CodesRead, count: usize) {
        let body = self.block(count);
        let variable = self.name_of(variable);
        let codes = self.take_codes(codes);
        self.below = 0;
        let arm = Arm {
            variable,
            codes,
            body,
        };
        let put = put_behind(&mut self.arms, arm);
        self.kept(put);
    }

    /// `try` of so many statements, with so many handlers.
    pub fn try_except(&mut self, count: usize, arms: usize) {
        let body = self.block(count);
        let cut = cut_off(&mut self.arms, arms);
        let arms = self.many(cut);
        self.statement(StatementNode::TryExcept { body, arms });
    }

    /// `try` of so many statements, with so many that are done whatever these did.
    pub fn try_finally(&mut self, count: usize, others: usize) {
        let cleanup = self.block(others);
        let body = self.block(count);
        self.statement(StatementNode::TryFinally { body, cleanup });
    }
}
