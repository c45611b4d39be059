//! What a program of tables does with its input: it answers each line, and prints what is told of cases.

use crate::{LineFault, print_answer, told};
use anyhow::Context;
use std::io;

/// Prints a line with its answer behind it. A line that is empty or begins with `#` is printed as it is.
fn answer_line<R: Print + AllocGlobal, F: Fn(&str, &str) -> Result<String, LineFault>>(
    rt: &R,
    answer: &F,
    line: &str,
) -> anyhow::Result<()>
    requires { F.IsAlwaysCallable answer.now }
{
    if line.is_empty() || line.starts_with('#') {
        rt.println(line)?;
        return Ok(());
    }
    let (word, fields) = line.split_once(' ').unwrap_or((line, ""));
    let answered = told(answer(word, fields));
    let text = answered.context(format_args!("{line}"))?;
    print_answer(rt, line, text.as_str())?;
    Ok(())
}

/// Answers each line of the input, whose first word is its kind and the rest its fields. The first that has no answer ends this with an
/// error that names it.
pub fn answer_lines<R: Input + Print + AllocGlobal, F: Fn(&str, &str) -> Result<String, LineFault>>(
    rt: &R,
    answer: &F,
) -> anyhow::Result<()>
    requires { F.IsAlwaysCallable answer.now }
{
    let text = io::read_to_string(rt.alloc(), rt.reader())?;
    for line in text.lines() {
        answer_line(rt, answer, line)?;
    }
    Ok(())
}

/// Prints what is told by a crate of runs or of cases.
pub fn print_lines<R: Print>(rt: &R, lines: Result<String, LineFault>) -> anyhow::Result<()> {
    let lines = lines?;
    print!(rt; "{lines}")?;
    Ok(())
}
