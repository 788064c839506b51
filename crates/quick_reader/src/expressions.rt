//! Expressions of those that were read last.
use crate::limits::GREATEST_HEIGHT;
use crate::pair::Pair;
use crate::reader::{Found, Reader, cut_off, put_behind};
use crate::several::{CodesRead, Several};
use crate::target::target_of;
use moo_tree::expression::{Argument, Codes, Expression, ExpressionNode, Fallback, Target};
use moo_value::operator::UnaryOperator;
use moo_value::value::Value;

impl Reader<'_> {
    /// Keeps an expression over those that were taken for it.
    #[inline(always)]
    pub fn put(&mut self, node: ExpressionNode) {
        let height = self.height_over();
        let found = Found {
            expression: Expression { node },
            height,
        };
        let put = put_behind(&mut self.expressions, found);
        self.kept(put);
    }

    // How high an expression is over those that were taken for it.
    #[inline(always)]
    fn height_over(&mut self) -> usize {
        let below = self.below;
        self.below = 0;
        if below >= GREATEST_HEIGHT {
            self.refuse();
            return 1;
        }
        below + 1
    }

    /// Keeps a literal value.
    pub fn literal(&mut self, value: Value) {
        self.put(ExpressionNode::Literal(value));
    }

    /// Keeps a name that is written plainly behind a `.` or a `:`.
    pub fn name(&mut self, word: &[u8]) {
        if let Some(name) = self.name_text(word) {
            self.literal(Value::text(name));
        }
    }

    /// A variable.
    pub fn variable(&mut self, name: &[u8]) {
        if let Some(name) = self.name_text(name) {
            self.put(ExpressionNode::Variable(name));
        }
    }

    /// Takes the last expression for another one.
    fn take(&mut self) -> Option<Expression> {
        match self.expressions.pop() {
            Some(found) => {
                self.below = self.below.max(found.height);
                Some(found.expression)
            }
            None => None,
        }
    }

    fn boxed(&mut self) -> Option<Box<Expression>> {
        match self.take() {
            Some(expression) => {
                let boxed = Box::new(self.alloc, expression);
                self.kept(boxed)
            }
            None => None,
        }
    }

    /// An operator before an operand.
    pub fn unary(&mut self, operator: UnaryOperator) {
        if let Some(operand) = self.boxed() {
            self.put(ExpressionNode::Unary(operator, operand));
        }
    }

    /// Two expressions.
    pub fn pair(&mut self, pair: Pair) {
        if let Some(second) = self.boxed() {
            if let Some(first) = self.boxed() {
                self.put(pair.of(first, second));
            }
        }
    }

    /// A property with a name that is written plainly.
    pub fn property(&mut self, word: &[u8]) {
        if let Some(name) = self.name_text(word) {
            let name = Expression {
                node: ExpressionNode::Literal(Value::text(name)),
            };
            let boxed = Box::new(self.alloc, name);
            if let Some(name) = self.kept(boxed) {
                if let Some(object) = self.boxed() {
                    self.put(ExpressionNode::Property(object, name));
                }
            }
        }
    }

    /// `c ? a | b`
    pub fn conditional(&mut self) {
        if let Some(other) = self.boxed() {
            if let Some(value) = self.boxed() {
                if let Some(condition) = self.boxed() {
                    self.put(ExpressionNode::Conditional(condition, value, other));
                }
            }
        }
    }

    /// A part of a list or a text.
    pub fn range(&mut self) {
        if let Some(last) = self.boxed() {
            if let Some(first) = self.boxed() {
                if let Some(base) = self.boxed() {
                    self.put(ExpressionNode::Range(base, first, last));
                }
            }
        }
    }

    /// Keeps the last expression as an argument, which stands for its items if it is spliced, behind others.
    pub fn argument(&mut self, others: Several, is_spliced: bool) -> Several {
        match self.expressions.pop() {
            Some(Found { expression, height }) => {
                let argument = if is_spliced {
                    Argument::Splice(expression)
                } else {
                    Argument::Value(expression)
                };
                let put = put_behind(&mut self.arguments, argument);
                self.kept(put);
                others.and(height)
            }
            None => others,
        }
    }

    // Takes these arguments for an expression.
    fn take_arguments(&mut self, several: Several) -> Vec<Argument> {
        self.below = self.below.max(several.height);
        let cut = cut_off(&mut self.arguments, several.count);
        self.many(cut)
    }

    /// A list of these items.
    pub fn list(&mut self, items: Several) {
        let items = self.take_arguments(items);
        self.put(ExpressionNode::List(items));
    }

    /// A call of a built-in function.
    pub fn call(&mut self, function: &[u8], arguments: Several) {
        if let Some(function) = self.name_text(function) {
            let arguments = self.take_arguments(arguments);
            self.put(ExpressionNode::Call(function, arguments));
        }
    }

    /// A call of an object's verb.
    pub fn verb_call(&mut self, arguments: Several) {
        if let Some(name) = self.boxed() {
            if let Some(object) = self.boxed() {
                let arguments = self.take_arguments(arguments);
                self.put(ExpressionNode::VerbCall(object, name, arguments));
            }
        }
    }

    /// Takes the codes of a handler.
    pub fn take_codes(&mut self, codes: CodesRead) -> Codes {
        match codes {
            CodesRead::Any => Codes::Any,
            CodesRead::Listed(several) => Codes::Listed(self.take_arguments(several)),
        }
    }

    /// An expression whose errors of these codes stand for it.
    pub fn caught(&mut self, codes: CodesRead) {
        if let Some(body) = self.boxed() {
            let codes = self.take_codes(codes);
            self.put(ExpressionNode::Catch(body, codes, Fallback::TheCode));
        }
    }

    /// An expression in whose place the last one stands where it fails by these codes.
    pub fn caught_instead(&mut self, codes: CodesRead) {
        if let Some(value) = self.boxed() {
            if let Some(body) = self.boxed() {
                let codes = self.take_codes(codes);
                self.put(ExpressionNode::Catch(body, codes, Fallback::Instead(value)));
            }
        }
    }

    // Takes the last expression as what is assigned to.
    fn target(&mut self) -> Option<Target> {
        match self.take() {
            Some(Expression { node }) => target_of(self, node, GREATEST_HEIGHT),
            None => None,
        }
    }

    /// An assignment to an expression to which something may be assigned.
    pub fn assignment(&mut self) {
        if let Some(value) = self.boxed() {
            if let Some(target) = self.target() {
                self.put(ExpressionNode::Assignment(target, value));
            }
        }
    }

    /// An assignment of a list's items to these variables.
    pub fn scatter(&mut self, items: Several) {
        if let Some(value) = self.boxed() {
            self.below = self.below.max(items.height);
            let cut = cut_off(&mut self.items, items.count);
            let items = self.many(cut);
            self.put(ExpressionNode::Scatter(items, value));
        }
    }
}
