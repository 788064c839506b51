//! Where a verb stands in its code, from its line.
ghost use Rattle.std.specs.Prelude.{◌≡◌, [], ◌∷◌, ℕ, List, Some, true, false, codes, IfOk, IsTrue, MatchOption};
ghost use Rattle.spec_value.specs.Datum as datum;
ghost use Rattle.spec_program.specs.Tree.{Program as ProgramTree};
ghost use Rattle.spec_program.specs.Construct.{of_program};
ghost use Rattle.spec_program.specs.Place.{Holds};
ghost use Rattle.spec_world.specs.World as world;
ghost use Rattle.spec_world.specs.WellFormed.{StandsAtCall, pieces_fit};
ghost use Rattle.spec_world.specs.Checkpoint.{fields, part_numbers, path as path_text};
ghost use Rattle.spec_faults.specs.Codes.{holds_down};
ghost use Rattle.moo_code.specs.Paths.{path_of};
ghost use Rattle.held_values.specs.Wanted.{wanted_by};
ghost use Rattle.line_fields.specs.Values.{are_places};
ghost use Rattle.checkpoint_lines.specs.Rows.{Left, Reads};
ghost use Rattle.task_lines.specs.Standing.{IsStand};
ghost use Rattle.task_lines.specs.Tasks.{FrameStands};
ghost use Rattle.task_lines.specs.Wanting.{IsWantedBy, StandsWith, TellsStand};

use checkpoint_lines::fault::{DecodeError, FaultKind};
use checkpoint_lines::lines::Lines;
use held_values::fits::Wanted;
use held_values::wanted::wanted_at;
use moo_program::program::Program;
use std::alloc::{AllocError, Global};
use tree_parts::frame_paths::paths::call_place;

/// Where a verb stands in its code, and what it can hold there.
#[derive(Drop)]
pub struct Stand {
    pub place: usize,
    pub wanted: Vec<Wanted>,
}

/// Where a verb with this program stands, from the next line: one that was forked at its beginning, any other at a call.
///
/// Fault Frame where it cannot stand there.
pub fn next_stand(
    alloc: Global,
    lines: &mut Lines<'_>,
    program: &Program,
    is_fork: bool,
) -> Result<Stand, DecodeError>
    ensures reads { (f : world.Frame) (rest : List datum.Text) → FrameStands is_fork f → IsTrue (are_places (path_of f.pieces)) → IsTrue (pieces_fit f.pieces) → program.now ≡ f.program → Left lines.old (fields (codes "place" ∷ path_text (part_numbers f.pieces) ∷ []) ∷ rest) → Reads result lines.new rest (IsStand is_fork f) }
    ensures tells { TellsStand is_fork program.now result lines.old lines.new }
{
    let row = lines.next_with(alloc, b"place", 1)?;
    let path = row.path(alloc, 1)?;
    let found = stand_at(alloc, program, is_fork, &path)?;
    found.ok_or(row.fault(FaultKind::Frame))
}

fn stand_at(
    alloc: Global,
    program: &Program,
    is_fork: bool,
    path: &[usize],
) -> Result<Option<Stand>, AllocError>
    ensures reads { (f : world.Frame) → FrameStands is_fork f → IsTrue (pieces_fit f.pieces) → program.now ≡ f.program → path.now ≡ path_of f.pieces → IfOk result (λ o. MatchOption o ⊥ (IsStand is_fork f)) }
    ensures tells { IfOk result (StandsWith is_fork program.now path.now) }
{
    if is_fork {
        Ok(at_beginning(alloc, path))
    } else {
        at_call(alloc, program, path)
    }
}

fn at_beginning(alloc: Global, path: &[usize]) -> Option<Stand>
    ensures reads { (f : world.Frame) → f.pieces ≡ [] → path.now ≡ path_of f.pieces → MatchOption result ⊥ (IsStand true f) }
    ensures tells { (p : ProgramTree) → StandsWith true p path.now result }
{
    if !path.is_empty() {
        return None;
    }
    Some(Stand {
        place: 0,
        wanted: Vec::new(alloc),
    })
}

fn at_call(alloc: Global, program: &Program, path: &[usize]) -> Result<Option<Stand>, AllocError>
    ensures reads { (f : world.Frame) → StandsAtCall f → IsTrue (pieces_fit f.pieces) → program.now ≡ f.program → path.now ≡ path_of f.pieces → IfOk result (λ o. MatchOption o ⊥ (IsStand false f)) }
    ensures tells { IfOk result (StandsWith false program.now path.now) }
{
    let found = wanted_at(alloc, program.tree(), path)?;
    match found {
        Some(wanted) => placed(program, path, wanted),
        None => Ok(None),
    }
}

// At the call that the path leads to, where these values are wanted.
fn placed(
    program: &Program,
    path: &[usize],
    wanted: Vec<Wanted>,
) -> Result<Option<Stand>, AllocError>
    ensures reads { (f : world.Frame) → StandsAtCall f → IsTrue (pieces_fit f.pieces) → program.now ≡ f.program → path.now ≡ path_of f.pieces → wanted.items ≡ wanted_by f.pieces
        → IfOk result (λ o. MatchOption o ⊥ (IsStand false f)) }
    ensures tells { (hs : List (ℕ × Holds)) → holds_down 0 (of_program program.now) path.now ≡ Some hs → IsWantedBy hs wanted.items → IfOk result (StandsWith false program.now path.now) }
{
    let found = call_place(program, path)?;
    match found {
        Some(place) => Ok(Some(Stand { place, wanted })),
        None => Ok(None),
    }
}
