//! The steps of a session.
ghost use Rattle.std.specs.Prelude.{◌≡◌, ◌<◌, ◌∷◌, ◌++◌, [], pos, true, length, string_bytes, OnOk, IfOk, IsFalse, MatchOption};
ghost use Rattle.spec_value.specs.Datum.{is_text};
ghost use Rattle.spec_world.specs.Step.{open_link, close_link, line_of};
ghost use Rattle.task_step.specs.StepView.{event_of};
ghost use Rattle.telnet_line.specs.Events.{events_given, event_of as heard};
ghost use Rattle.streams.specs.Reads.{all_given};
ghost use Rattle.moo_session.specs.Sessions.{opens, closes, lines_of, talk, happenings};
ghost use Rattle.moo_session.specs.Drafts.{Adds, Begun};

use moo_value::text::Text;
use std::alloc::{AllocError, Global};
use task_step::step::{Event, Step};
use telnet_line::Event as Heard;

/// A list of steps in the making.
#[derive(Drop)]
pub struct Draft {
    /// The number of the next step.
    pub next: u32,
    /// The moment of every step.
    pub moment: u32,
    /// The key of every step.
    pub key: [u8; 32],
    /// The steps so far.
    pub steps: Vec<Step>,
    /// Whether it has every step that was to be added. One that is out of its range was left out, with all after it.
    pub fits: bool,
}

impl Draft {
    /// An empty list.
    pub fn new(alloc: Global, next: u32, moment: u32, key: [u8; 32]) -> Draft
        ensures { Begun next moment key result }
    {
        Draft {
            next,
            moment,
            key,
            steps: Vec::new(alloc),
            fits: true,
        }
    }

    // Adds a step, unless the list does not fit any more.
    fn push(&mut self, event: Event) -> Result<(), AllocError>
        ensures { OnOk result (Adds (event_of event ∷ []) self.old self.new) }
    {
        if self.fits {
            self.push_next(event)
        } else {
            Ok(())
        }
    }

    // Adds a step, unless its number has none after it.
    fn push_next(&mut self, event: Event) -> Result<(), AllocError>
        requires { self.old.fits ≡ true }
        ensures { OnOk result (Adds (event_of event ∷ []) self.old self.new) }
    {
        match self.next.checked_add(1) {
            Some(next) => {
                self.steps.push(Step {
                    number: self.next,
                    moment: self.moment,
                    key: self.key,
                    event,
                })?;
                self.next = next;
                Ok(())
            }
            None => {
                self.fits = false;
                Ok(())
            }
        }
    }

    // So many connections are opened.
    fn open_all(&mut self, count: usize) -> Result<(), AllocError>
        requires { count < 1000 }
        ensures { OnOk result (Adds (opens 1 count) self.old self.new) }
    {
        'open: for at in 0..count {
            self.push(Event::Open(at as u32 + 1))?;
        }
        Ok(())
    }

    // So many connections are closed.
    fn close_all(&mut self, count: usize) -> Result<(), AllocError>
        requires { count < 1000 }
        ensures { OnOk result (Adds (closes 1 count) self.old self.new) }
    {
        'close: for at in 0..count {
            self.push(Event::Close(at as u32 + 1))?;
        }
        Ok(())
    }

    // A connection says a line, or gets a reply, which is no step.
    #[tactic(auto, using(crate::proofs::Adding::adds_none))]
    fn hear(&mut self, connection: u32, event: &Heard) -> Result<(), AllocError>
        ensures { OnOk result (Adds (lines_of connection (heard event.now ∷ [])) self.old self.new) }
    {
        match event {
            Heard::Line(line) => self.say(connection, line),
            Heard::Reply(_) => Ok(()),
        }
    }

    fn say(&mut self, connection: u32, line: &String) -> Result<(), AllocError>
        ensures { OnOk result (Adds (line_of (pos connection) (string_bytes line.now) ∷ []) self.old self.new) }
    {
        let text = text_of(line)?;
        match text {
            Some(text) => self.push(Event::Line(connection, text)),
            None => {
                self.fits = false;
                Ok(())
            }
        }
    }

    // A connection says its lines.
    fn hear_all(&mut self, connection: u32, events: &[Heard]) -> Result<(), AllocError>
        ensures { OnOk result (Adds (lines_of connection (events_given events.now)) self.old self.new) }
    {
        'event: for event in events {
            self.hear(connection, event)?;
        }
        Ok(())
    }

    // All lines of the first connection are said, then those of the next.
    fn talk(&mut self, all: &[Vec<Heard>]) -> Result<(), AllocError>
        requires { length all.now < 1000 }
        ensures { OnOk result (Adds (talk 1 (all_given all.now)) self.old self.new) }
    {
        'connection: for at in 0..all.len() {
            self.hear_all(at as u32 + 1, all[at].as_slice())?;
        }
        Ok(())
    }

    /// Connections are opened, say their lines and are closed.
    pub fn fill(&mut self, all: &[Vec<Heard>]) -> Result<(), AllocError>
        requires { length all.now < 1000 }
        ensures { OnOk result (Adds (happenings (all_given all.now)) self.old self.new) }
    {
        self.open_all(all.len())?;
        self.talk(all)?;
        self.close_all(all.len())?;
        Ok(())
    }
}

// The line as a text, if its characters are allowed.
fn text_of(line: &String) -> Result<Option<Text>, AllocError>
    ensures { IfOk result (λ o. MatchOption o (IsFalse (is_text (string_bytes line.now))) (λ t. t ≡ string_bytes line.now)) }
{
    Text::new(line.clone()?)
}
