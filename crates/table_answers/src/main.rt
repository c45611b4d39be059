//! Answers the lines of tables over parts of the program, and then tells what cases that no line spells came to. Each line of the input is
//! a kind and its fields, and the output is the same line with the answer behind it. With the argument `times` a line about a hub also
//! says how long it took.
#![tactic(auto)]

mod kinds;

use kinds::Table;
use std::alloc::Global;
use std::rt::{Clock, Env, Files};
use std::sync::Wait;
use std::thread::Threads;
use std::{env, io};
use table_lines::{LineFault, answer_lines, print_lines};

/// The answer to a line, a kind and its fields, by the table that has this kind.
fn answer<R: Threads + Wait + Sync + Clock>(
    rt: &R,
    alloc: Global,
    word: &str,
    fields: &str,
    timed: bool,
) -> Result<String, LineFault> {
    match Table::with(word).ok_or(LineFault::Kind)? {
        Table::Low => low_tables::answer(alloc, word, fields),
        Table::Terms => tables::answer(alloc, word, fields),
        Table::Stores => store_tables::answer(alloc, word, fields),
        Table::Rigs => rig_tables::answer(alloc, word, fields),
        Table::Hubs => hub_runs::answer(rt, alloc, word, fields, timed),
    }
}

fn wants_times<R: Env + AllocGlobal>(rt: &R) -> io::Result<bool> {
    Ok(env::args(rt)?.skip(1).any(|word| word.as_str() == "times"))
}

/// Answers the lines of the input, and tells of the cases.
fn answer_all<R: Input + Print + AllocGlobal + Threads + Wait + Sync + Clock + Files>(
    rt: &R,
    timed: bool,
) -> anyhow::Result<()> {
    let alloc = rt.alloc();
    let by_kind = |word: &str, fields: &str| -> Result<String, LineFault> {
        answer(rt, alloc, word, fields, timed)
    };
    answer_lines(rt, &by_kind)?;
    print_lines(rt, part_calls::told_outside(rt, alloc))?;
    print_lines(rt, hub_runs::told(rt, alloc))?;
    print_lines(rt, part_calls::told_terms(alloc))
}

fn main(rt: HostRuntime) -> anyhow::Result<()> {
    let timed = wants_times(&rt)?;
    answer_all(&rt, timed)
}
