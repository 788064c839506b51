//! One run of `moo-play`.
ghost use Rattle.std.specs.Prelude.{◌≡◌, ◌⊎◌, ℕ, List, IfSome, IfOk, IsOk, OnOk, IsTrue, is_some, MatchOption, Some, None};
ghost use Rattle.std.specs.Io.KnownBytes.{Appends};
ghost use Rattle.spec_world.specs.Step.{Step, RunsOn, AllInRange};
ghost use Rattle.moo_script.specs.Numbers.{number_value};
ghost use Rattle.moo_script.specs.Scripts.{IsScript};
ghost use Rattle.moo_server.specs.Printed.{stopped_line};
ghost use Rattle.moo_server.specs.Runs.{Ran, RanInPart, conclusion};
ghost use Rattle.moo_server.specs.Workers.{NamesWorkers};

use crate::command_line;
use crate::parts::{Played, play_steps};
use moo_script::fault::ScriptFault;
use moo_script::number::read_number;
use moo_script::script::read_script;
use speculate::gate::Gate;
use speculate::list::MOST_WORKERS;
use std::alloc::Global;
use std::io;
use std::io::Write;
use std::rt::Clock;
use std::sync::Wait;
use std::thread::Threads;
use task_step::list::may_play;
use world::worlds::World;

/// The status of a run that went to its end.
pub const DONE: u8 = 0;

/// The status of a fault, and of output that could not be written.
pub const FAULT: u8 = 2;

/// The status of a run that memory stopped.
pub const STOPPED: u8 = 3;

/// Runs a script over a world and writes the lines of its steps as they are run. A world or a script that could not be read comes as the line of
/// its fault, without the program's name. Gives the world at the end, where a list ran and its lines were written, and the status.
pub fn play_script<G: Gate, R: Threads + Wait + Clock + Sync, W: Write, E: Write>(
    rt: &R,
    alloc: Global,
    gate: &G,
    workers: &str,
    world: Result<World, String>,
    script: Result<Vec<u8>, String>,
    out: &mut W,
    errors: &mut E,
) -> (Option<World>, u8)
    ensures workers { (NamesWorkers workers.now → ⊥) → (result.0 ≡ None) × (result.1 ≡ 2) × (out.new ≡ out.old) }
    ensures numbers { IfOk world (λ w. IfOk script (λ s. (steps : List Step) → IsScript s.items w.plain.next steps → (RunsOn w.plain steps × AllInRange steps → ⊥) → (result.0 ≡ None) × (out.new ≡ out.old))) }
    ensures done { result.1 ≡ 0 → IsOk world × IsOk script × IsTrue (is_some result.0) }
    ensures whole { IfOk world (λ w. IfOk script (λ s. IfSome result.0 (λ after. result.1 ≡ 0 → Ran w.plain s.items after.plain (W.contents out.old) (W.contents out.new)))) }
    ensures part { IfOk world (λ w. IfOk script (λ s. IfSome result.0 (λ after. result.1 ≡ 3 → (count : ℕ) × RanInPart w.plain s.items count after.plain (W.contents out.old) (W.contents out.new)))) }
    ensures status { MatchOption result.0 ((result.1 ≡ 2) ⊎ (result.1 ≡ 3)) (λ after. (result.1 ≡ 0) ⊎ (result.1 ≡ 3)) }
{
    let Some(workers) = read_workers(workers) else {
        return (None, refuse(errors, "workers"));
    };
    let mut world = match world {
        Ok(world) => world,
        Err(fault) => return (None, refuse(errors, fault.as_str())),
    };
    let script = match script {
        Ok(script) => script,
        Err(fault) => return (None, refuse(errors, fault.as_str())),
    };
    let steps = match read_script(alloc, script.as_slice(), first_number(&world)) {
        Ok(steps) => steps,
        Err(fault) => return (None, refuse_script(errors, &fault)),
    };
    if !may_play(world.next(), &steps) {
        return (None, refuse(errors, "numbers"));
    }
    world.reopen();
    let played = play_steps(rt, alloc, gate, world, &steps, workers, out);
    conclude(errors, played)
}

/// How many workers the word says: a number from 1 to 64 without needless zeros.
pub fn read_workers(word: &str) -> Option<usize>
    ensures { MatchOption result (NamesWorkers word.now → ⊥) (λ n. NamesWorkers word.now × (n ≡ number_value word.now)) }
{
    let workers = read_number(word.as_bytes())? as usize;
    if 1 <= workers && workers <= MOST_WORKERS {
        Some(workers)
    } else {
        None
    }
}

/// Says that memory ran out after so many steps.
pub fn stopped<E: Write>(errors: &mut E, count: usize) -> u8
    ensures { result ≡ 3 }
{
    let _ = tell_stopped(errors, count);
    STOPPED
}

fn tell_stopped<E: Write>(errors: &mut E, count: usize) -> io::Result<()>
    ensures { OnOk result (Appends (E.contents errors.old) (E.contents errors.new) (stopped_line count)) }
{
    writeln!(errors, "stopped after {count}")
}

/// Says what is wrong, in a line that begins with the program's name.
pub fn refuse<E: Write>(errors: &mut E, fault: &str) -> u8
    ensures { result ≡ 2 }
{
    command_line::refuse(errors, "moo-play", fault)
}

// The number of the first step. A world whose numbers are used up has one that is out of range; its list is then refused.
fn first_number(world: &World) -> u32
    ensures { result ≡ world.now.plain.next }
{
    world.know();
    world.next() as u32
}

fn refuse_script<E: Write>(errors: &mut E, fault: &ScriptFault) -> u8
    ensures { (result ≡ 2) ⊎ (result ≡ 3) }
{
    match fault {
        ScriptFault::Line { line, kind } => {
            let _ = writeln!(errors, "moo-play: script: line {line}: {kind}");
            FAULT
        }
        ScriptFault::Memory(_) => stopped(errors, 0),
    }
}

/// Says so where memory stopped the run.
pub(crate) fn conclude<E: Write>(errors: &mut E, played: Played) -> (Option<World>, u8)
    ensures { result ≡ conclusion played }
{
    match played {
        Played::Whole(world) => (Some(world), DONE),
        Played::Part(world, count) => (Some(world), stopped(errors, count)),
        Played::Unwritten => (None, FAULT),
    }
}
