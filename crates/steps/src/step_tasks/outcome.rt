//! Outcomes of steps.
ghost use Rattle.std.specs.Prelude.{◌≡◌, map, pos, MatchOption, IfOk};
ghost use Rattle.spec_world.specs.World.{World};
ghost use Rattle.spec_moo.specs.Steps.Outcomes.{idle_with};
ghost use Rattle.moo_task.specs.Deeds.{due_of as due_meant, queued_of as queued_meant, told_of};
ghost use Rattle.task_step.specs.OutcomeView.{result_of, lines_of, queued_of, due_of, closed_of};
ghost use Rattle.steps.specs.StepsPerformed.{came_to_of};

use crate::step_tasks::finish::Finish;
use moo_task::deeds;
use moo_task::deeds::{Deeds, Told};
use std::alloc::{AllocError, Global};
use task_step::outcome::{Due, Ending, Outcome, OutputLine, Queued};

/// The outcome of a step, by what it has done and how it finished. No connection's number is negative.
pub fn outcome(alloc: Global, deeds: &Deeds, finish: Finish) -> Result<Outcome, AllocError>
    ensures { IfOk result (λ o. (w : World) → came_to_of deeds.now finish w ≡ (w, o)) }
{
    let output = output_lines(alloc, &deeds.output)?;
    let queued = queued_tasks(alloc, &deeds.queued)?;
    let closed = closed_connections(alloc, &deeds.closed)?;
    Ok(Outcome {
        result: finish.ending,
        ticks: finish.ticks,
        output,
        queued,
        closed,
        checkpoint: deeds.checkpoint,
    })
}

/// The outcome of a step that has done nothing.
pub fn idle(alloc: Global, ending: Ending) -> Outcome
    ensures { result ≡ idle_with (result_of ending) }
{
    Outcome {
        result: ending,
        ticks: 0,
        output: Vec::new(alloc),
        queued: Vec::new(alloc),
        closed: Vec::new(alloc),
        checkpoint: false,
    }
}

fn output_lines(alloc: Global, output: &[Told]) -> Result<Vec<OutputLine>, AllocError>
    ensures { IfOk result (λ v. lines_of v.items ≡ map told_of output.now) }
{
    let mut lines = Vec::with_capacity(alloc, output.len())?;
    for told in output {
        let connection = connection_number(told.player)?;
        let text = String::from_str(alloc, told.line.as_str())?;
        lines.push(OutputLine { connection, text })?;
    }
    Ok(lines)
}

fn queued_tasks(alloc: Global, queued: &[deeds::Queued]) -> Result<Vec<Queued>, AllocError>
    ensures { IfOk result (λ v. queued_of v.items ≡ map queued_meant queued.now) }
{
    let mut tasks = Vec::with_capacity(alloc, queued.len())?;
    for task in queued {
        let due = due(task.due);
        tasks.push(Queued { task: task.id, due })?;
    }
    Ok(tasks)
}

fn due(due: deeds::Due) -> Due
    ensures { due_of result ≡ due_meant due }
{
    match due {
        deeds::Due::AtMoment(moment) => Due::At(moment),
        deeds::Due::Never => Due::Never,
        deeds::Due::WhenRead => Due::Line,
    }
}

fn closed_connections(alloc: Global, closed: &[i32]) -> Result<Vec<u32>, AllocError>
    ensures { IfOk result (λ v. closed_of v.items ≡ closed.now) }
{
    let mut connections = Vec::with_capacity(alloc, closed.len())?;
    for connection in closed {
        let number = connection_number(*connection)?;
        connections.push(number)?;
    }
    Ok(connections)
}

fn connection_number(connection: i32) -> Result<u32, AllocError>
    ensures { IfOk result (λ n. pos n ≡ connection) }
{
    match u32::try_from(connection) {
        Ok(number) => Ok(number),
        Err(_) => Err(AllocError),
    }
}
