//! What a step gives back.
use moo_value::value::Value;
use std::marker::Model;

/// What a step gave, beside the world that it left.
#[derive(Drop)]
pub struct Outcome {
    /// How it ended.
    pub result: Ending,
    /// The ticks that it used.
    pub ticks: u32,
    /// The lines that it told, in order.
    pub output: Vec<OutputLine>,
    /// The tasks that it put in the queue, in that order.
    pub queued: Vec<Queued>,
    /// The connections that it closed, other than by a Close step, in that order.
    pub closed: Vec<u32>,
    /// Whether it asked for a checkpoint.
    pub checkpoint: bool,
}

impl Model for Outcome {
    ghost use Rattle.std.specs.Prelude.{pos};
    ghost use Rattle.spec_world.specs.Outcome.{Outcome as Meant};
    ghost use Rattle.spec_world.specs.StepCode.{outcome_code};

    ghost Value = { Meant };

    ghost coded = { outcome_code };

    ghost use Rattle.task_step.specs.OutcomeView.{result_of, lines_of, queued_of, closed_of};

    ghost view = { λ a. record { result = result_of a.result; ticks_used = a.ticks; output = lines_of a.output.items; queued = queued_of a.queued.items; closed = closed_of a.closed.items; checkpoint = a.checkpoint } };
}

/// How a step ended.
#[derive(Drop)]
pub enum Ending {
    /// Its task ended with this value.
    Value(Value),
    /// An error with this code was not caught.
    Raised(Value),
    /// Its task waits in the queue.
    Suspended,
    /// Its task waits for a line.
    Reading,
    /// Its task ran out of ticks.
    OutOfTicks,
    /// Its task was killed.
    Killed,
    /// Nothing ran.
    Nothing,
    /// The task is not in the queue.
    Absent,
    /// The task is not due.
    Early,
    /// The world has ended.
    Ended,
}

/// A line of text for a connection, of printing ASCII, spaces and tabs.
#[derive(Drop)]
pub struct OutputLine {
    pub connection: u32,
    pub text: String,
}

/// A task that was put in the queue, with its due moment at that time.
#[derive(Drop)]
pub struct Queued {
    pub task: i32,
    pub due: Due,
}

/// When a queued task is due.
#[derive(Clone, Copy, PartialEq, Eq, Debug)]
pub enum Due {
    /// At this moment, in seconds.
    At(u32),
    /// Only when another task resumes it.
    Never,
    /// When a line comes for it.
    Line,
}
