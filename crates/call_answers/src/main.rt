//! Answers the lines about calls of the program over files in memory, and then tells what two workers at a gate and the examples came to.
//! Each line of the input is a kind, or what is shown of a call, and its fields, and the output is the same line with the answer behind it.
#![tactic(auto)]

mod program;

use call_harness::{Ended, Meeting, Outside};
use std::alloc::{AllocError, Global};
use std::rt::Files;
use std::sync::Wait;
use std::thread::Threads;
use table_lines::{LineFault, answer_lines, print_lines};

/// The answer to a line, a kind and its fields, with what runs the program.
fn answer_by<F: Fn(&Meeting, &[String], &mut Outside) -> Result<Ended, AllocError>>(
    run: &F,
    alloc: Global,
    word: &str,
    fields: &str,
) -> Result<String, LineFault>
    requires { F.IsAlwaysCallable run.now }
{
    if word == "race" || word == "damage" {
        return program_calls::paired(run, alloc, word, fields);
    }
    program_calls::answer(run, alloc, word, fields)
}

/// The answer to a line.
fn answer<R: Threads + Wait + Sync>(
    rt: &R,
    alloc: Global,
    word: &str,
    fields: &str,
) -> Result<String, LineFault> {
    let run = |gate: &Meeting, words: &[String], outside: &mut Outside| -> Result<
        Ended,
        AllocError,
    > { program::call(rt, alloc, gate, words, outside) };
    answer_by(&run, alloc, word, fields)
}

/// Tells what two workers at a gate came to, and the examples.
fn tell_runs<R: Print + Threads + Wait + Sync + Files>(
    rt: &R,
    alloc: Global,
) -> anyhow::Result<()> {
    let run = |gate: &Meeting, words: &[String], outside: &mut Outside| -> Result<
        Ended,
        AllocError,
    > { program::call(rt, alloc, gate, words, outside) };
    print_lines(rt, gate_runs::told(rt, &run, alloc))?;
    print_lines(rt, program_calls::told(rt, &run, alloc))
}

/// Answers the lines of the input, and tells of the runs.
fn answer_all<R: Input + Print + AllocGlobal + Threads + Wait + Sync + Files>(
    rt: &R,
) -> anyhow::Result<()> {
    let alloc = rt.alloc();
    let by_kind = |word: &str, fields: &str| -> Result<String, LineFault> {
        answer(rt, alloc, word, fields)
    };
    answer_lines(rt, &by_kind)?;
    tell_runs(rt, alloc)
}

fn main(rt: HostRuntime) -> anyhow::Result<()> {
    answer_all(&rt)
}
