//! What a list is assigned to.
use crate::reader::{Found, Reader, put_behind};
use crate::several::Several;
use moo_tree::expression::Item;

/// What stands before a variable in a scatter.
#[derive(Clone, Copy)]
pub enum Mark {
    Nothing,
    /// `?`
    Optional,
    /// `@`
    Rest,
}

impl Reader<'_> {
    /// Takes the mark before a variable.
    pub fn take_mark(&mut self) -> Mark {
        if self.take_byte(b'?') {
            Mark::Optional
        } else if self.take_exact(b'@') {
            Mark::Rest
        } else {
            Mark::Nothing
        }
    }

    /// Takes the sign before a value, if a variable with this mark has one.
    pub fn takes_value(&mut self, mark: Mark) -> bool {
        match mark {
            Mark::Optional => self.take_alone(b'=', b'='),
            _ => false,
        }
    }

    /// Keeps a variable behind others.
    pub fn item(&mut self, others: Several, mark: Mark, name: &[u8]) -> Several {
        if let Some(name) = self.name_text(name) {
            let item = match mark {
                Mark::Nothing => Item::Required(name),
                Mark::Optional => Item::Optional(name),
                Mark::Rest => Item::Rest(name),
            };
            let put = put_behind(&mut self.items, item);
            self.kept(put);
        }
        others.and(0)
    }

    /// Keeps a variable behind others, with the last expression as its value where the list has none for it.
    pub fn item_with_value(&mut self, others: Several, name: &[u8]) -> Several {
        if let Some(name) = self.name_text(name) {
            if let Some(Found { expression, height }) = self.expressions.pop() {
                let put = put_behind(&mut self.items, Item::Default(name, expression));
                self.kept(put);
                return others.and(height);
            }
        }
        others
    }
}
