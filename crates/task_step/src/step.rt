//! Steps.
ghost use Rattle.std.specs.Prelude.{◌≡◌, ◌&&◌, ◌==◌, nat_le, nat_lt, length, pos};
ghost use Rattle.std.specs.List.{list_all};
ghost use Rattle.spec_value.specs.Datum.{in_number_range, is_text};
ghost use Rattle.spec_world.specs.Step.{in_range as step_in_range, event_in_range};
ghost use Rattle.spec_world.specs.WellFormed.{is_connection as is_connection_number};
ghost use Rattle.task_step.specs.StepView.{event_of};

use moo_value::text::Text;
use std::marker::Model;

/// The greatest number of a step.
pub const GREATEST_NUMBER: u32 = 33_554_431;

/// The greatest moment, in seconds.
pub const GREATEST_MOMENT: u32 = 2_147_483_647;

/// The greatest number of a connection.
pub const GREATEST_CONNECTION: u32 = 999_999;

/// The most characters of an input line.
pub const LONGEST_LINE: usize = 4096;

/// One atomic step of a world: an input event or a task that is due, with its place in the list, its moment and its random stream.
#[derive(Drop)]
pub struct Step {
    /// Its number, from 1 to `GREATEST_NUMBER`.
    pub number: u32,
    /// When it happens, in seconds, at most `GREATEST_MOMENT`.
    pub moment: u32,
    /// The key of its random words, which are those of ChaCha20 in the stream of the step's number.
    pub key: [u8; 32],
    /// What happens.
    pub event: Event,
}

impl Model for Step {
    ghost use Rattle.spec_world.specs.Step.{Step as Meant};
    ghost use Rattle.spec_world.specs.StepCode.{step_code};

    ghost Value = { Meant };

    ghost coded = { step_code };

    ghost use Rattle.task_step.specs.StepView.{event_of};

    ghost view = { λ a. record { number = a.number; moment = a.moment; key = a.key; event = event_of a.event } };
}

/// What happens in a step. Connections are numbered from 1 to `GREATEST_CONNECTION`.
#[derive(Drop)]
pub enum Event {
    /// A connection is opened.
    Open(u32),
    /// A connection sends a line.
    Line(u32, Text),
    /// A connection is closed.
    Close(u32),
    /// A queued task goes on, if it is there and due.
    Ready(i32),
}

/// Whether every field of the step is in its range.
pub fn in_range(step: &Step) -> bool
    ensures { result ≡ step_in_range step.now }
{
    is_number_in_range(step.number)
        && step.moment <= GREATEST_MOMENT
        && is_key(&step.key)
        && is_event_in_range(&step.event)
}

fn is_number_in_range(number: u32) -> bool
    ensures { result ≡ (nat_le 1 number && nat_le number 33554431) }
{
    1 <= number && number <= GREATEST_NUMBER
}

// An array of bytes always is one: this says so once.
fn is_key(key: &[u8; 32]) -> bool
    ensures { result ≡ ((length key.now == 32) && list_all (λ b. nat_lt b 256) key.now) }
{
    let _bytes = key.iter();
    key.len() == 32
}

fn is_event_in_range(event: &Event) -> bool
    ensures { result ≡ event_in_range (event_of event.now) }
{
    match event {
        Event::Open(connection) | Event::Close(connection) => is_connection(*connection),
        Event::Line(connection, text) => is_connection(*connection) && is_short(text),
        Event::Ready(id) => is_task_number(*id),
    }
}

fn is_short(text: &Text) -> bool
    ensures { result ≡ (nat_le (length text.now) 4096 && is_text text.now) }
{
    text.know();
    text.len() <= LONGEST_LINE
}

fn is_connection(number: u32) -> bool
    ensures { result ≡ is_connection_number (pos number) }
{
    1 <= number && number <= GREATEST_CONNECTION
}

// An `i32` always is one: this says so once.
fn is_task_number(id: i32) -> bool
    ensures { result ≡ in_number_range id }
{
    id <= i32::MAX
}
