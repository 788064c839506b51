//! `moo-server`: serves a world on a port of this machine. The words and the listener are made here; all else is `server_loop`'s and `moo_server`'s.
#![tactic(auto)]

mod options;
mod run;

use moo_server::play::stopped;
use std::process::ExitCode;
use std::thread::Builder;
use task_step::stack::STACK_SIZE;

fn main(rt: HostRuntime) -> ExitCode {
    let host = rt;
    let job = move || {
        let mut errors = host.stderr();
        run::run(host, &mut errors)
    };
    match Builder::new().stack_size(STACK_SIZE).spawn(&rt, job) {
        Ok(handle) => ExitCode::from(handle.join(&rt)),
        Err(_) => ExitCode::from(stopped(&mut rt.stderr(), 0)),
    }
}
