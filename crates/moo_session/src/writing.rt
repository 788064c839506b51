//! The texts of a session, made and written.
ghost use Rattle.std.specs.Prelude.{◌≡◌, ◌<◌, map, length, IfOk, IfErr, OnOk};
ghost use Rattle.streams.specs.Reads.{all_given, Rises};
ghost use Rattle.streams.specs.Writes.{EachWritten};
ghost use Rattle.moo_session.specs.Sessions.{texts_from};
ghost use Rattle.moo_session.specs.Texts.{all_items, IsCutAt};

use crate::telling::text_of;
use std::alloc::{AllocError, Global};
use streams::sink::Sink;
use streams::writing::write_text;
use task_step::outcome::Outcome;
use telnet_line::Event;

/// What is written to each connection.
pub fn texts_of(
    alloc: Global,
    all: &[Vec<Event>],
    outcomes: &[Outcome],
) -> Result<Vec<Vec<u8>>, AllocError>
    requires { length all.now < 1000 }
    ensures texts { IfOk result (λ v. all_items v.items ≡ texts_from 1 (all_given all.now) outcomes.now) }
    ensures count { IfOk result (λ v. length v.items ≡ length all.now) }
{
    let mut texts = Vec::new(alloc);
    'connection: for at in 0..all.len() {
        let text = text_of(alloc, at as u32 + 1, all[at].as_slice(), outcomes)?;
        texts.push(text)?;
    }
    Ok(texts)
}

/// Writes each text. A failure is told by the number of its writer, from 1 on.
pub fn write_all<W: Sink>(sinks: &mut [W], texts: &[Vec<u8>]) -> Result<(), usize>
    requires { length sinks.old ≡ length texts.now }
    ensures whole { OnOk result (EachWritten (map W.written sinks.old) (map W.written sinks.new) (all_items texts.now)) }
    ensures part { IfErr result (λ n. IsCutAt n W.written sinks.old sinks.new (all_items texts.now)) }
    ensures failed { IfErr result (λ n. Rises n (map W.failures sinks.old) (map W.failures sinks.new)) }
{
    'sink: for at in 0..sinks.len() {
        match write_text(&mut sinks[at], texts[at].as_slice()) {
            Ok(()) => {}
            Err(_) => return Err(at + 1),
        }
    }
    Ok(())
}
