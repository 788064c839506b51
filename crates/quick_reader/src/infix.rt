//! What stands between two expressions.
use crate::pair::Pair;
use crate::reader::Reader;
use moo_value::operator::BinaryOperator;
use tokens_ahead::front::is_word_character;

/// What stands between an expression and what goes on behind it.
#[derive(Clone, Copy)]
pub enum Infix {
    Pair(Pair),
    /// `?`
    Conditional,
    /// `=`
    Assignment,
}

impl Infix {
    // How tightly it binds: the greater, the tighter.
    fn level(self) -> u8 {
        match self {
            Infix::Pair(Pair::Operator(operator)) => level(operator),
            Infix::Pair(_) => 2,
            Infix::Conditional => 1,
            Infix::Assignment => 0,
        }
    }
}

fn level(operator: BinaryOperator) -> u8 {
    match operator {
        BinaryOperator::ToThe => 6,
        BinaryOperator::Times | BinaryOperator::DividedBy | BinaryOperator::RemainderBy => 5,
        BinaryOperator::Plus | BinaryOperator::Minus => 4,
        _ => 3,
    }
}

/// The level that the right one of two has.
pub fn right_level(pair: Pair) -> u8 {
    match pair {
        Pair::Operator(BinaryOperator::ToThe) => 6,
        Pair::Operator(operator) => level(operator).saturating_add(1),
        _ => 3,
    }
}

impl Reader<'_> {
    /// Takes what stands between two expressions, if it is next and binds as tightly as is wanted.
    pub fn take_infix(&mut self, wanted: u8) -> Option<Infix> {
        self.skip_blanks();
        if ends_expression(self.byte(0)) {
            return None;
        }
        let Some((infix, length)) = self.infix() else {
            return None;
        };
        if infix.level() < wanted {
            return None;
        }
        self.take_front(length);
        Some(infix)
    }

    // What stands between two expressions, and how many bytes it has.
    fn infix(&self) -> Option<(Infix, usize)> {
        let sign = self.byte(0);
        let second = self.byte(1);
        if let Some(pair) = of_two(sign, second, self.byte(2)) {
            return Some((Infix::Pair(pair), 2));
        }
        match of_one(sign, second) {
            Some(infix) => Some((infix, 1)),
            None => None,
        }
    }
}

// Most of the signs with which no expression goes on.
fn ends_expression(sign: u8) -> bool {
    match sign {
        b')' | b',' | b';' | b']' | b'}' | b'\'' => true,
        _ => false,
    }
}

// Of two bytes. `in` is none where a longer word begins with it.
fn of_two(first: u8, second: u8, third: u8) -> Option<Pair> {
    match second {
        b'=' => comparison(first),
        b'&' if first == b'&' => Some(Pair::Both),
        b'|' if first == b'|' => Some(Pair::Either),
        b'n' | b'N' if (first == b'i' || first == b'I') && !is_word_character(third) => {
            Some(Pair::Operator(BinaryOperator::IsIn))
        }
        _ => None,
    }
}

// With `=` behind it.
fn comparison(first: u8) -> Option<Pair> {
    match first {
        b'=' => Some(Pair::Operator(BinaryOperator::Equals)),
        b'!' => Some(Pair::Operator(BinaryOperator::Differs)),
        b'<' => Some(Pair::Operator(BinaryOperator::LessOrEqual)),
        b'>' => Some(Pair::Operator(BinaryOperator::GreaterOrEqual)),
        _ => None,
    }
}

// Of one byte: `=>` is none.
fn of_one(sign: u8, second: u8) -> Option<Infix> {
    match sign {
        b'=' if second != b'>' => Some(Infix::Assignment),
        b'?' => Some(Infix::Conditional),
        _ => operator(sign),
    }
}

fn operator(sign: u8) -> Option<Infix> {
    match sign {
        b'+' => between(BinaryOperator::Plus),
        b'-' => between(BinaryOperator::Minus),
        b'*' => between(BinaryOperator::Times),
        b'/' => between(BinaryOperator::DividedBy),
        b'%' => between(BinaryOperator::RemainderBy),
        b'^' => between(BinaryOperator::ToThe),
        b'<' => between(BinaryOperator::Less),
        b'>' => between(BinaryOperator::Greater),
        _ => None,
    }
}

fn between(operator: BinaryOperator) -> Option<Infix> {
    Some(Infix::Pair(Pair::Operator(operator)))
}
