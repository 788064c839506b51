//! How an operand begins.
use crate::reader::Reader;
use crate::within::is_scatter;
use moo_tree::expression::ExpressionNode;
use moo_value::operator::UnaryOperator;
use moo_value::value::Value;

/// How an operand begins, or that all of it was read.
#[derive(Clone, Copy)]
pub enum Start<'a> {
    Whole,
    /// A sign before an operand.
    Unary(UnaryOperator),
    /// `(`
    Group,
    /// `{`, of a list
    List,
    /// `{`, of what a list is assigned to
    Scatter,
    /// A backquote.
    Catch,
    /// The name of a function, and `(`
    Call(&'a [u8]),
    /// `$`, a name and `(`
    SystemVerb,
}

impl<'a> Reader<'a> {
    /// Takes the beginning of an operand.
    pub fn take_start(&mut self) -> Start<'a> {
        self.skip_blanks();
        match self.byte(0) {
            b'a'..=b'z' | b'_' => self.take_name(),
            b'0'..=b'9' => {
                let number = self.take_integer();
                self.whole(Value::integer(number))
            }
            b'E' => {
                let error = self.take_error();
                self.whole(Value::error(error))
            }
            sign => {
                self.take_front(1);
                self.take_sign(sign)
            }
        }
    }

    // A literal.
    fn whole(&mut self, value: Value) -> Start<'a> {
        self.literal(value);
        Start::Whole
    }

    fn take_sign(&mut self, sign: u8) -> Start<'a> {
        match sign {
            b'"' => self.take_literal(),
            b'#' => {
                let number = self.take_object();
                self.whole(Value::object(number))
            }
            b'$' => self.take_system(),
            b'{' => braces(self.rest),
            b'(' => Start::Group,
            b'-' => Start::Unary(UnaryOperator::Negation),
            b'!' => Start::Unary(UnaryOperator::NotTrue),
            b'`' => Start::Catch,
            _ => {
                self.refuse();
                Start::Whole
            }
        }
    }

    // A text, whose first quotation mark was taken.
    fn take_literal(&mut self) -> Start<'a> {
        if let Some(text) = self.take_text() {
            self.literal(Value::text(text));
        }
        Start::Whole
    }

    // A variable, or a call of a function.
    fn take_name(&mut self) -> Start<'a> {
        let name = self.take_word();
        if self.take_byte(b'(') {
            return Start::Call(name);
        }
        self.variable(name);
        Start::Whole
    }

    // `$` alone, or what is on `#0`.
    fn take_system(&mut self) -> Start<'a> {
        match self.byte(0) {
            b'a'..=b'z' | b'A'..=b'Z' | b'_' => self.take_system_name(),
            _ => {
                self.put(ExpressionNode::OwnLength);
                Start::Whole
            }
        }
    }

    fn take_system_name(&mut self) -> Start<'a> {
        let name = self.take_word();
        self.literal(Value::object(0));
        if self.take_byte(b'(') {
            self.name(name);
            return Start::SystemVerb;
        }
        self.property(name);
        Start::Whole
    }
}

// Which braces these are, by what stands in them.
fn braces(rest: &[u8]) -> Start<'static> {
    if is_scatter(rest) {
        Start::Scatter
    } else {
        Start::List
    }
}
