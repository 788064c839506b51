//! The lines of variables.
ghost use Rattle.std.specs.Prelude.{◌≡◌, ◌++◌, [], ◌∷◌, OnOk, IfOk};
ghost use Rattle.spec_world.specs.Checkpoint.{variable_lines, with_line_ends};
ghost use Rattle.moo_task.specs.Frames.{kept_of};
ghost use Rattle.checkpoint_text.specs.CheckpointFramesLines.{lent_variable, lent_variables, vars_lines};

use crate::checkpoint_fields::page::Page;
use crate::checkpoint_frames::lent::Lent;
use crate::checkpoint_frames::variables::variables;
use moo_task::frame::Frame;
use std::alloc::{AllocError, Global};

/// Writes the variables of a verb that have values.
pub fn put_variables(page: &mut Page, alloc: Global, frame: &Frame) -> Result<(), AllocError>
    ensures { OnOk result (page.new ≡ page.old ++ with_line_ends (vars_lines (kept_of frame.now).variables)) }
{
    let variables = variables(alloc, frame)?;
    page.put_count("vars", variables.len())?;
    put_each_variable(page, &variables)
}

fn put_each_variable(page: &mut Page, variables: &[Lent<'_>]) -> Result<(), AllocError>
    ensures { OnOk result (page.new ≡ page.old ++ with_line_ends (variable_lines (lent_variables variables.now))) }
{
    for variable in variables {
        put_variable(page, variable)?;
    }
    Ok(())
}

fn put_variable(page: &mut Page, variable: &Lent<'_>) -> Result<(), AllocError>
    ensures { OnOk result (page.new ≡ page.old ++ with_line_ends (variable_lines (lent_variable variable.now ∷ []))) }
{
    page.put("var ")?;
    page.put_quoted(variable.name)?;
    page.put(" ")?;
    page.put_value(variable.value)?;
    page.end_line()
}
