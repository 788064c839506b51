//! The lines that `moo-play` prints.
ghost use Rattle.std.specs.Prelude.{◌≡◌, ◌≤◌, ◌∷◌, ◌++◌, [], length, OnOk};
ghost use Rattle.std.specs.List.{flat_map};
ghost use Rattle.std.specs.Io.KnownBytes.{Appends};
ghost use Rattle.std.specs.Fmt.{decimal, signed_decimal};
ghost use Rattle.spec_value.specs.Literal.{literal};
ghost use Rattle.spec_world.specs.Outcome.{value_of};
ghost use Rattle.task_step.specs.OutcomeView.{result_of, lines_of, due_of, queued_of, closed_of};
ghost use Rattle.moo_server.specs.Printed.{result_text, step_line, ended_line, told_line, due_text, queued_line, closed_line, outcome_lines, printed};

use itoa::Buffer;
use moo_value::value::{Shown, Value};
use moo_value::write::Literal;
use std::io;
use std::io::Write;
use task_step::outcome::{Due, Ending, Outcome, OutputLine, Queued};
use task_step::step::Step;

/// The lines of some steps, all of which go out at once. No memory is asked for.
pub fn print_steps<W: Write>(out: &mut W, steps: &[Step], outcomes: &[Outcome]) -> io::Result<()>
    requires { length outcomes.now ≤ length steps.now }
    ensures { OnOk result (Appends (W.contents out.old) (W.contents out.new) (printed steps.now outcomes.now)) }
{
    for (i, outcome) in outcomes.iter().enumerate() {
        let step = &steps[i];
        print_outcome(out, step.number, outcome)?;
    }
    out.flush()
}

/// The lines of a step: `step N RESULT ticks T`, then `> C TEXT` for each output line, `+ ID DUE` for each queued task and `! C` for each
/// closed link.
pub fn print_outcome<W: Write>(out: &mut W, number: u32, outcome: &Outcome) -> io::Result<()>
    ensures { OnOk result (Appends (W.contents out.old) (W.contents out.new) (outcome_lines number outcome.now)) }
{
    print_result(out, number, outcome)?;
    print_told(out, &outcome.output)?;
    print_queued(out, &outcome.queued)?;
    print_closed(out, &outcome.closed)
}

fn print_result<W: Write>(out: &mut W, number: u32, outcome: &Outcome) -> io::Result<()>
    ensures { OnOk result (Appends (W.contents out.old) (W.contents out.new) (step_line number outcome.now)) }
{
    match &outcome.result {
        Ending::Value(value) => print_value(out, number, value, outcome.ticks),
        ending => print_other(out, number, ending, outcome.ticks),
    }
}

// The line of a step whose task gave a value.
fn print_value<W: Write>(out: &mut W, number: u32, value: &Value, ticks: u32) -> io::Result<()>
    ensures { OnOk result (Appends (W.contents out.old) (W.contents out.new) (ended_line number (value_of value.now) ticks)) }
{
    out.write_all(b"step ")?;
    print_number(out, number)?;
    out.write_all(b" value ")?;
    print_literal(out, value)?;
    out.write_all(b" ticks ")?;
    print_number(out, ticks)?;
    out.write_all(b"\n")
}

// A number in digits.
#[inline(always)]
fn print_number<W: Write>(out: &mut W, number: u32) -> io::Result<()>
    ensures { OnOk result (Appends (W.contents out.old) (W.contents out.new) (decimal number)) }
{
    let mut digits = Buffer::new();
    out.write_all(digits.format(number).as_bytes())
}

// A value as a program would write it.
fn print_literal<W: Write>(out: &mut W, value: &Value) -> io::Result<()>
    ensures { OnOk result (Appends (W.contents out.old) (W.contents out.new) (literal value.now)) }
{
    match value.shown() {
        Shown::Integer(number) => print_integer(out, number),
        _ => print_any(out, value),
    }
}

#[inline(always)]
fn print_integer<W: Write>(out: &mut W, number: i32) -> io::Result<()>
    ensures { OnOk result (Appends (W.contents out.old) (W.contents out.new) (signed_decimal number)) }
{
    let mut digits = Buffer::new();
    out.write_all(digits.format(number).as_bytes())
}

#[inline(never)]
fn print_any<W: Write>(out: &mut W, value: &Value) -> io::Result<()>
    ensures { OnOk result (Appends (W.contents out.old) (W.contents out.new) (literal value.now)) }
{
    let literal = Literal(value);
    write!(out, "{literal}")
}

// The line of a step, however it ended.
#[inline(never)]
fn print_other<W: Write>(out: &mut W, number: u32, ending: &Ending, ticks: u32) -> io::Result<()>
    ensures { OnOk result (Appends (W.contents out.old) (W.contents out.new) (ended_line number (result_of ending.now) ticks)) }
{
    write!(out, "step {number} ")?;
    print_ending(out, ending)?;
    writeln!(out, " ticks {ticks}")
}

fn print_ending<W: Write>(out: &mut W, ending: &Ending) -> io::Result<()>
    ensures { OnOk result (Appends (W.contents out.old) (W.contents out.new) (result_text (result_of ending.now))) }
{
    match ending {
        Ending::Value(value) => {
            let literal = Literal(value);
            write!(out, "value {literal}")
        }
        Ending::Raised(code) => {
            let literal = Literal(code);
            write!(out, "raised {literal}")
        }
        Ending::Suspended => write!(out, "suspended"),
        Ending::Reading => write!(out, "reading"),
        Ending::OutOfTicks => write!(out, "ticks"),
        Ending::Killed => write!(out, "killed"),
        Ending::Nothing => write!(out, "none"),
        Ending::Absent => write!(out, "absent"),
        Ending::Early => write!(out, "early"),
        Ending::Ended => write!(out, "ended"),
    }
}

fn print_told<W: Write>(out: &mut W, lines: &[OutputLine]) -> io::Result<()>
    ensures { OnOk result (Appends (W.contents out.old) (W.contents out.new) (flat_map told_line (lines_of lines.now))) }
{
    for line in lines {
        let connection = line.connection;
        let text = line.text.as_str();
        writeln!(out, "> {connection} {text}")?;
    }
    Ok(())
}

fn print_queued<W: Write>(out: &mut W, tasks: &[Queued]) -> io::Result<()>
    ensures { OnOk result (Appends (W.contents out.old) (W.contents out.new) (flat_map queued_line (queued_of tasks.now))) }
{
    for queued in tasks {
        let task = queued.task;
        write!(out, "+ {task} ")?;
        print_due(out, queued.due)?;
    }
    Ok(())
}

fn print_due<W: Write>(out: &mut W, due: Due) -> io::Result<()>
    ensures { OnOk result (Appends (W.contents out.old) (W.contents out.new) (due_text (due_of due) ++ 10 ∷ [])) }
{
    match due {
        Due::At(moment) => writeln!(out, "{moment}"),
        Due::Never => writeln!(out, "never"),
        Due::Line => writeln!(out, "read"),
    }
}

fn print_closed<W: Write>(out: &mut W, connections: &[u32]) -> io::Result<()>
    ensures { OnOk result (Appends (W.contents out.old) (W.contents out.new) (flat_map closed_line (closed_of connections.now))) }
{
    for connection in connections {
        writeln!(out, "! {connection}")?;
    }
    Ok(())
}
