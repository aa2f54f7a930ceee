// The program: `check` reads a certificate from standard input and checks it, `format` reads terms and prints them, `batch`
// checks the declarations of a module, `replay` plays rounds of sessions that share one context.
// It writes what the definition of the answer says, and the context that it hands back is legal.
// Stands on the checker, the readers of certificates, specifications and terms, batches, sessions, and the outside.
#![tactic(auto)]

mod answer;
mod batch;
#[cfg(test)]
mod batches;
mod command;
mod enter;
mod format;
mod replay;
mod run;
mod system;
#[cfg(test)]
mod tests;
mod words;

use crate::run::{Finish, run};
use pts_io::{FolderLibrary, StdSink, StdSource};
use std::env;
use std::mem::forget;
use std::process::ExitCode;

/// Runs with the words after the program's own name. Words that are not UTF-8 are of no form.
fn main(rt: HostRuntime) -> ExitCode {
    let alloc = rt.alloc();
    let words = match env::args(&rt) {
        Ok(words) => words.skip(1).collect(alloc),
        Err(_) => Ok(Vec::new(alloc)),
    };
    let Ok(words) = words else {
        return ExitCode::from(7);
    };
    let mut source = StdSource::new(rt.stdin());
    let mut sink = StdSink::new(rt.stdout());
    let mut library = FolderLibrary::new(rt);
    let Finish {
        status,
        context,
        order,
    } = run(
        alloc,
        words.as_slice(),
        &mut source,
        &mut sink,
        &mut library,
    );
    // The process ends here, so nothing is gained by giving memory back piece by piece.
    forget(context);
    forget(order);
    ExitCode::from(status)
}
