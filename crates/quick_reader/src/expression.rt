//! Expressions.
use crate::infix::{Infix, right_level};
use crate::limits::GREATEST_HEIGHT;
use crate::pair::Pair;
use crate::reader::Reader;
use crate::several::{CodesRead, Several};
use crate::start::Start;
use crate::step::Step;

/// Reads an expression that binds as tightly as is wanted, with room for so many others one within the other.
#[cycle(read)]
pub fn read_expression(reader: &mut Reader<'_>, wanted: u8, room: usize) {
    if room == 0 {
        return reader.refuse();
    }
    read_operand(reader, room - 1);
    for _ in 0..GREATEST_HEIGHT {
        match reader.take_infix(wanted) {
            Some(infix) => read_behind(reader, infix, room - 1),
            None => return,
        }
    }
    reader.refuse();
}

// What stands behind the sign that follows an expression.
#[cycle(read)]
fn read_behind(reader: &mut Reader<'_>, infix: Infix, room: usize) {
    match infix {
        Infix::Pair(pair) => {
            read_expression(reader, right_level(pair), room);
            reader.pair(pair);
        }
        Infix::Conditional => read_values(reader, room),
        Infix::Assignment => {
            read_expression(reader, 0, room);
            reader.assignment();
        }
    }
}

// The two values behind a condition.
#[cycle(read)]
fn read_values(reader: &mut Reader<'_>, room: usize) {
    read_expression(reader, 0, room);
    reader.expect_alone(b'|', b'|');
    read_expression(reader, 1, room);
    reader.conditional();
}

#[cycle(read)]
fn read_operand(reader: &mut Reader<'_>, room: usize) {
    read_start(reader, room);
    for _ in 0..GREATEST_HEIGHT {
        match reader.take_step() {
            Some(step) => read_step(reader, step, room),
            None => return,
        }
    }
    reader.refuse();
}

#[cycle(read)]
fn read_start(reader: &mut Reader<'_>, room: usize) {
    let start = reader.take_start();
    match start {
        Start::Whole => {}
        Start::Unary(operator) => {
            read_expression(reader, 7, room);
            reader.unary(operator);
        }
        Start::Group => read_group(reader, room),
        Start::List => {
            let items = read_arguments(reader, b'}', room);
            reader.list(items);
        }
        Start::Scatter => read_scatter(reader, room),
        Start::Catch => read_catch(reader, room),
        Start::Call(function) => {
            let arguments = read_arguments(reader, b')', room);
            reader.call(function, arguments);
        }
        Start::SystemVerb => read_call(reader, room),
    }
}

// An expression whose parenthesis was opened.
#[cycle(read)]
fn read_group(reader: &mut Reader<'_>, room: usize) {
    read_expression(reader, 0, room);
    reader.expect_byte(b')');
}

// The arguments of a verb whose parenthesis was opened.
#[cycle(read)]
fn read_call(reader: &mut Reader<'_>, room: usize) {
    let arguments = read_arguments(reader, b')', room);
    reader.verb_call(arguments);
}

#[cycle(read)]
fn read_step(reader: &mut Reader<'_>, step: Step, room: usize) {
    match step {
        Step::Property => read_property(reader, room),
        Step::Verb => {
            read_name(reader, room);
            reader.expect_byte(b'(');
            read_call(reader, room);
        }
        Step::Bracket => read_bracket(reader, room),
    }
}

// What stands behind the `.` of a property.
#[cycle(read)]
fn read_property(reader: &mut Reader<'_>, room: usize) {
    if reader.take_byte(b'(') {
        read_group(reader, room);
        return reader.pair(Pair::Property);
    }
    let name = reader.expect_word();
    reader.property(name);
}

// An index, or the first and the last one.
#[cycle(read)]
fn read_bracket(reader: &mut Reader<'_>, room: usize) {
    read_expression(reader, 0, room);
    if reader.take_byte(b']') {
        return reader.pair(Pair::Index);
    }
    reader.expect_two(b'.', b'.');
    read_expression(reader, 0, room);
    reader.expect_byte(b']');
    reader.range();
}

// A name behind a `:`, or an expression in parentheses.
#[cycle(read)]
fn read_name(reader: &mut Reader<'_>, room: usize) {
    if reader.take_byte(b'(') {
        return read_group(reader, room);
    }
    let name = reader.expect_word();
    reader.name(name);
}

// Arguments up to the sign that closes them.
#[cycle(read)]
fn read_arguments(reader: &mut Reader<'_>, close: u8, room: usize) -> Several {
    if reader.take_byte(close) {
        return Several::new();
    }
    let arguments = read_several(reader, room);
    reader.expect_byte(close);
    arguments
}

// One argument or more.
#[cycle(read)]
fn read_several(reader: &mut Reader<'_>, room: usize) -> Several {
    let mut several = Several::new();
    for _ in 0..reader.rest.len() {
        let is_spliced = reader.take_byte(b'@');
        read_expression(reader, 0, room);
        several = reader.argument(several, is_spliced);
        if !reader.take_byte(b',') {
            return several;
        }
    }
    reader.refuse();
    several
}

/// Reads the codes that a handler takes.
#[cycle(read)]
pub fn read_codes(reader: &mut Reader<'_>, room: usize) -> CodesRead {
    if reader.take_keyword(b"any".as_slice()) {
        return CodesRead::Any;
    }
    CodesRead::Listed(read_several(reader, room))
}

#[cycle(read)]
fn read_catch(reader: &mut Reader<'_>, room: usize) {
    read_expression(reader, 0, room);
    reader.expect_alone(b'!', b'=');
    let codes = read_codes(reader, room);
    if reader.take_byte(b'\'') {
        return reader.caught(codes);
    }
    reader.expect_two(b'=', b'>');
    read_expression(reader, 0, room);
    reader.expect_byte(b'\'');
    reader.caught_instead(codes);
}

#[cycle(read)]
fn read_scatter(reader: &mut Reader<'_>, room: usize) {
    let items = read_items(reader, room);
    reader.expect_byte(b'}');
    reader.expect_alone(b'=', b'=');
    read_expression(reader, 0, room);
    reader.scatter(items);
}

// The variables of a scatter.
#[cycle(read)]
fn read_items(reader: &mut Reader<'_>, room: usize) -> Several {
    let mut items = Several::new();
    for _ in 0..reader.rest.len() {
        items = read_item(reader, items, room);
        if !reader.take_byte(b',') {
            return items;
        }
    }
    reader.refuse();
    items
}

#[cycle(read)]
fn read_item(reader: &mut Reader<'_>, others: Several, room: usize) -> Several {
    let mark = reader.take_mark();
    let name = reader.expect_word();
    if reader.takes_value(mark) {
        read_expression(reader, 0, room);
        return reader.item_with_value(others, name);
    }
    reader.item(others, mark, name)
}
