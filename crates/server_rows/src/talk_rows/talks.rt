//! What clients say and are told.
use crate::talk_rows::client::{Turn, at_once};
use crate::talk_rows::served::others;
use std::alloc::{AllocError, Global};
use std::test::Fail;

/// What a link is told when it is opened.
const GREETING: &[u8] = b"Type connect #n\r\n";

/// What a player is told after logging in.
const CONNECTED: &[u8] = b"*** Connected ***\r\n";

/// A line with an option in its midst, which is refused.
const STREAM: &[u8] = b"lo\xff\xfd\x01ok\r\n";

/// The refusal of the option, and what the verb tells.
const TOLD: &[u8] = b"\xff\xfc\x01look\r\n";

// A player logs in, has `look` tell the word by which it is called, and says the line, cut at each of its bytes in turn.
fn cut_anywhere(alloc: Global) -> Result<Vec<Turn>, AllocError> {
    let mut turns = Vec::new(alloc);
    turns.push(at_once(b"", GREETING))?;
    turns.push(at_once(b"connect #4\r\n", CONNECTED))?;
    turns.push(at_once(
        b";set_verb_code(#3, \"look\", {\"notify(player, verb);\"})\r\n",
        b"",
    ))?;
    let stream = STREAM;
    for at in 0..stream.len() {
        let (first, second) = stream.split_at(at);
        turns.push(Turn {
            first,
            second,
            told: TOLD,
        })?;
    }
    Ok(turns)
}

#[test]
fn an_option_in_a_line(rt: HostRuntime) -> Result<(), Fail> {
    assert_eq!(rt; others(rt, cut_anywhere(rt.alloc())?)?.as_str(), "");
    Ok(())
}

#[test]
fn the_wizard(rt: HostRuntime) -> Result<(), Fail> {
    let turns = [
        at_once(b"", GREETING),
        at_once(b"connect #2\r\n", CONNECTED),
    ];
    let turns = Vec::from_slice(rt.alloc(), &turns)?;
    assert_eq!(rt; others(rt, turns)?.as_str(), "");
    Ok(())
}

#[test]
fn a_player(rt: HostRuntime) -> Result<(), Fail> {
    let turns = [
        at_once(b"", GREETING),
        at_once(b"connect #5\r\n", CONNECTED),
        at_once(b"looks\r\n", b"I couldn't understand that.\r\n"),
    ];
    let turns = Vec::from_slice(rt.alloc(), &turns)?;
    assert_eq!(rt; others(rt, turns)?.as_str(), "");
    Ok(())
}
