//! Statements, within so many others.
use crate::beginning::Beginning;
use crate::expression::{read_codes, read_expression};
use crate::limits::{GREATEST_HEIGHT, GREATEST_NESTING};
use crate::reader::Reader;
use crate::several::CodesRead;

/// Reads statements up to a word that ends them or the end of the text. Gives how many.
#[cycle(read)]
pub fn read_block(reader: &mut Reader<'_>, depth: usize) -> usize {
    let most = reader.rest.len();
    for count in 0..most {
        let beginning = reader.take_beginning();
        match beginning {
            Beginning::End => return count,
            _ => read_statement(reader, beginning, depth),
        }
    }
    most
}

#[cycle(read)]
fn read_statement(reader: &mut Reader<'_>, beginning: Beginning, depth: usize) {
    match beginning {
        Beginning::If => read_if(reader, depth),
        Beginning::For => read_for(reader, depth),
        Beginning::While => read_while(reader, depth),
        Beginning::Fork => read_fork(reader, depth),
        Beginning::Try => read_try(reader, depth),
        Beginning::Return => read_return(reader, depth),
        Beginning::Break => {
            let name = reader.take_name_before(b';');
            reader.break_loop(name);
        }
        Beginning::Continue => {
            let name = reader.take_name_before(b';');
            reader.continue_loop(name);
        }
        Beginning::Value => {
            read_value(reader, depth);
            reader.evaluate();
        }
        Beginning::End => {}
    }
}

// The statements within a statement.
#[cycle(read)]
fn read_body(reader: &mut Reader<'_>, depth: usize) -> usize {
    if depth >= GREATEST_HEIGHT {
        reader.refuse();
        return 0;
    }
    read_block(reader, depth + 1)
}

// The statements up to an end word.
#[cycle(read)]
fn read_loop(reader: &mut Reader<'_>, depth: usize, end: &[u8]) -> usize {
    let count = read_body(reader, depth);
    reader.expect_keyword(end);
    count
}

#[cycle(read)]
fn read_if(reader: &mut Reader<'_>, depth: usize) {
    let count = read_branches(reader, depth);
    let others = read_else(reader, depth);
    reader.branching(count, others);
}

#[cycle(read)]
fn read_branches(reader: &mut Reader<'_>, depth: usize) -> usize {
    for before in 0..reader.rest.len() {
        reader.expect_byte(b'(');
        read_condition(reader, depth);
        let count = read_body(reader, depth);
        reader.branch(count);
        if !reader.take_keyword(b"elseif".as_slice()) {
            return before + 1;
        }
    }
    reader.refuse();
    0
}

#[cycle(read)]
fn read_else(reader: &mut Reader<'_>, depth: usize) -> Option<usize> {
    if reader.take_keyword(b"endif".as_slice()) {
        return None;
    }
    reader.expect_keyword(b"else".as_slice());
    Some(read_loop(reader, depth, b"endif".as_slice()))
}

#[cycle(read)]
fn read_for(reader: &mut Reader<'_>, depth: usize) {
    let variable = reader.expect_word();
    reader.expect_keyword(b"in".as_slice());
    if reader.take_byte(b'(') {
        read_condition(reader, depth);
        let count = read_loop(reader, depth, b"endfor".as_slice());
        return reader.for_each(variable, count);
    }
    read_range(reader, depth);
    let count = read_loop(reader, depth, b"endfor".as_slice());
    reader.for_range(variable, count);
}

#[cycle(read)]
fn read_while(reader: &mut Reader<'_>, depth: usize) {
    let name = reader.take_name_before(b'(');
    read_condition(reader, depth);
    let count = read_loop(reader, depth, b"endwhile".as_slice());
    reader.while_loop(name, count);
}

#[cycle(read)]
fn read_fork(reader: &mut Reader<'_>, depth: usize) {
    let variable = reader.take_name_before(b'(');
    read_condition(reader, depth);
    let count = read_loop(reader, depth, b"endfork".as_slice());
    reader.fork(variable, count);
}

#[cycle(read)]
fn read_try(reader: &mut Reader<'_>, depth: usize) {
    let count = read_body(reader, depth);
    if reader.take_keyword(b"finally".as_slice()) {
        let others = read_loop(reader, depth, b"endtry".as_slice());
        return reader.try_finally(count, others);
    }
    let arms = read_arms(reader, depth);
    reader.try_except(count, arms);
}

#[cycle(read)]
fn read_arms(reader: &mut Reader<'_>, depth: usize) -> usize {
    for before in 0..reader.rest.len() {
        read_arm(reader, depth);
        if reader.is_refused || reader.take_keyword(b"endtry".as_slice()) {
            return before + 1;
        }
    }
    reader.refuse();
    0
}

#[cycle(read)]
fn read_arm(reader: &mut Reader<'_>, depth: usize) {
    reader.expect_keyword(b"except".as_slice());
    let variable = reader.take_name_before(b'(');
    let codes = read_handled(reader, depth);
    let count = read_body(reader, depth);
    reader.arm(variable, codes, count);
}

// The codes of a handler, and the parenthesis behind them.
fn read_handled(reader: &mut Reader<'_>, depth: usize) -> CodesRead {
    let codes = read_codes(reader, GREATEST_NESTING);
    if let CodesRead::Listed(several) = codes {
        reader.fit(several.height, depth);
    }
    reader.expect_byte(b')');
    codes
}

// An expression of a statement.
fn read_whole(reader: &mut Reader<'_>, depth: usize) {
    read_expression(reader, 0, GREATEST_NESTING);
    let height = reader.height();
    reader.fit(height, depth);
}

// An expression that ends its statement.
fn read_value(reader: &mut Reader<'_>, depth: usize) {
    read_whole(reader, depth);
    reader.expect_byte(b';');
}

fn read_return(reader: &mut Reader<'_>, depth: usize) {
    if reader.take_byte(b';') {
        return reader.return_nothing();
    }
    read_value(reader, depth);
    reader.return_value();
}

// An expression whose parenthesis was opened.
fn read_condition(reader: &mut Reader<'_>, depth: usize) {
    read_whole(reader, depth);
    reader.expect_byte(b')');
}

// The first and the last number of a range, in brackets.
fn read_range(reader: &mut Reader<'_>, depth: usize) {
    reader.expect_byte(b'[');
    read_whole(reader, depth);
    reader.expect_two(b'.', b'.');
    read_whole(reader, depth);
    reader.expect_byte(b']');
}
