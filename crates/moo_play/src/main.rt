//! `moo-play`: runs a script of steps over a world. The words, the files and the streams are read here; all else is `moo_server`'s.
#![tactic(auto)]

mod files;
mod run;

use moo_server::play::stopped;
use std::process::ExitCode;
use std::thread::Builder;
use task_step::stack::STACK_SIZE;

fn main(rt: HostRuntime) -> ExitCode {
    let host = rt;
    let job = move || {
        let mut errors = host.stderr();
        run::run(&host, &mut errors)
    };
    match Builder::new().stack_size(STACK_SIZE).spawn(&rt, job) {
        Ok(handle) => ExitCode::from(handle.join(&rt)),
        Err(_) => ExitCode::from(stopped(&mut rt.stderr(), 0)),
    }
}
