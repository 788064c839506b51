//! What a session writes.
ghost use Rattle.std.specs.Prelude.{◌≡◌, ◌++◌, ◌<◌, ◌^◌, [], ◌∷◌, length, OnOk, IfOk};
ghost use Rattle.task_step.specs.OutcomeView.{lines_of};
ghost use Rattle.telnet_line.specs.Events.{events_given, event_of};
ghost use Rattle.moo_session.specs.Sessions.{told_to, output_of, replies, text_for};

use std::alloc::{AllocError, Global};
use task_step::outcome::{Outcome, OutputLine};
use telnet_line::Event;

// The line, if it is for this connection.
fn put_line(text: &mut Vec<u8>, connection: u32, line: &OutputLine) -> Result<(), AllocError>
    ensures { OnOk result (text.new.items ≡ text.old.items ++ told_to connection (lines_of (line.now ∷ []))) }
{
    if line.connection == connection {
        text.extend_from_slice(line.text.as_bytes())?;
        text.extend_from_slice(b"\r\n")?;
    }
    Ok(())
}

// The lines of an outcome that are for this connection.
fn put_lines(text: &mut Vec<u8>, connection: u32, lines: &[OutputLine]) -> Result<(), AllocError>
    ensures { OnOk result (text.new.items ≡ text.old.items ++ told_to connection (lines_of lines.now)) }
{
    'line: for line in lines {
        put_line(text, connection, line)?;
    }
    Ok(())
}

fn put_outcome(text: &mut Vec<u8>, connection: u32, outcome: &Outcome) -> Result<(), AllocError>
    ensures { OnOk result (text.new.items ≡ text.old.items ++ output_of connection (outcome.now ∷ [])) }
{
    put_lines(text, connection, outcome.output.as_slice())?;
    Ok(())
}

// The output of this connection.
fn put_output(text: &mut Vec<u8>, connection: u32, outcomes: &[Outcome]) -> Result<(), AllocError>
    ensures { OnOk result (text.new.items ≡ text.old.items ++ output_of connection outcomes.now) }
{
    'outcome: for outcome in outcomes {
        put_outcome(text, connection, outcome)?;
    }
    Ok(())
}

fn put_reply(text: &mut Vec<u8>, event: &Event) -> Result<(), AllocError>
    ensures { OnOk result (text.new.items ≡ text.old.items ++ replies (event_of event.now ∷ [])) }
{
    match event {
        Event::Reply(bytes) => text.extend_from_slice(bytes.as_slice())?,
        Event::Line(_) => {}
    }
    Ok(())
}

// The replies.
fn put_replies(text: &mut Vec<u8>, events: &[Event]) -> Result<(), AllocError>
    ensures { OnOk result (text.new.items ≡ text.old.items ++ replies (events_given events.now)) }
{
    'event: for event in events {
        put_reply(text, event)?;
    }
    Ok(())
}

/// All that is written to a connection: its replies, then its output.
pub fn text_of(
    alloc: Global,
    connection: u32,
    events: &[Event],
    outcomes: &[Outcome],
) -> Result<Vec<u8>, AllocError>
    ensures { IfOk result (λ v. v.items ≡ text_for connection (events_given events.now) outcomes.now) }
{
    let mut text = Vec::new(alloc);
    put_replies(&mut text, events)?;
    put_output(&mut text, connection, outcomes)?;
    Ok(text)
}
