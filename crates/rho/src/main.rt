//! The program: the words of the command line, files of the system, and the standard output.
#![tactic(auto)]

use rho_main::{Status, Usage, run};
use rho_outside::{FileShelf, OpenGate, StdSink};
use std::alloc::Global;
use std::env;
use std::io::ErrorKind;
use std::process::ExitCode;
use std::rt::Env;

/// The words after the program's name. A word that is no UTF-8 makes them a faulty command line.
fn read_args<R: Env + AllocGlobal>(rt: &R) -> Result<Vec<String>, Status> {
    let args = match env::args(rt) {
        Ok(args) => args,
        Err(error) => {
            return Err(if error.kind() == ErrorKind::OutOfMemory {
                Status::NoMemory
            } else {
                Status::Usage(Usage::BadWords)
            });
        }
    };
    match args.skip(1).collect(rt.alloc()) {
        Ok(words) => Ok(words),
        Err(_) => Err(Status::NoMemory),
    }
}

/// Writes the message of a status to standard error, where it has one and memory suffices.
fn explain(rt: &impl Eprint, alloc: Global, status: &Status) {
    let Ok(message) = status.message(alloc) else {
        return;
    };
    if message.is_empty() {
        return;
    }
    if let Ok(line) = str::from_utf8(message.as_slice()) {
        let _ = rt.eprintln(line);
    }
}

fn main(rt: HostRuntime) -> ExitCode {
    let alloc = rt.alloc();
    let mut shelf = FileShelf {
        rt: &rt,
        fetch_faults: 0,
        keep_faults: 0,
    };
    let mut out = StdSink { rt: &rt, faults: 0 };
    let status = match read_args(&rt) {
        Ok(words) => run(
            &rt,
            alloc,
            words.as_slice(),
            &mut shelf,
            &mut out,
            &OpenGate,
        ),
        Err(status) => status,
    };
    explain(&rt, alloc, &status);
    ExitCode::from(status.code())
}
