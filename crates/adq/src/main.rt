//! `adq sat CAP` or `adq wrap CAP` reads calls of a deque of numbers from standard input, makes
//! them, and prints what each answered, and then the list.
#![tactic(auto)]

mod drive;
mod fault;
mod line;
mod print;
mod streams;

use crate::drive::drive;
use crate::fault::Fault;
use std::process::ExitCode;
use std::rt::Env;
use std::{env, io};

/// The words after the program's name.
fn words<R: Env + AllocGlobal>(rt: &R) -> io::Result<Vec<String>> {
    Ok(env::args(rt)?.skip(1).collect(rt.alloc())?)
}

fn main(rt: HostRuntime) -> ExitCode {
    ExitCode::from(match words(&rt) {
        Ok(args) => drive(
            rt.alloc(),
            args.as_slice(),
            &mut rt.reader(),
            &mut rt.stdout(),
            &mut rt.stderr(),
        ),
        Err(_) => Fault::Memory.report(&mut rt.stderr()),
    })
}
