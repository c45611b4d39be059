//! Calls with given words and files.
use call_harness::{Ended, Harness, Meeting, Of, Outside, tell_all};
use std::alloc::{AllocError, Global};
use table_lines::LineFault;

/// A call. `shows` is what is shown of it, names with `+` between them; the fields are its words, and behind each `<>` a file,
/// its name and its text with `=` between them, or which call of the files or of the output fails.
pub fn answer<F: Fn(&Meeting, &[String], &mut Outside) -> Result<Ended, AllocError>>(
    run: &F,
    alloc: Global,
    shows: &str,
    fields: &str,
) -> Result<String, LineFault>
    requires { F.IsAlwaysCallable run.now }
{
    let mut harness = Harness::new(alloc);
    let words = set_files(&mut harness, fields);
    harness.call(run, words);
    tell_all(&mut harness, Of::Call, shows);
    harness.told()
}

// The words of a line, whose files are kept: each its name and its text, or which call fails.
fn set_files<'a>(harness: &mut Harness, fields: &'a str) -> &'a str {
    let mut parts = fields.split(" <> ");
    let words = parts.next().unwrap_or("");
    for part in parts {
        set_file(harness, part);
    }
    words
}

// Keeps a file: its name, `=` and its text with escapes. Or the next call of the files fails, or that of the output.
fn set_file(harness: &mut Harness, part: &str) {
    match part {
        "file fails" => harness.fail_next_file(),
        "put fails" => harness.fail_next_put(),
        _ => keep_part(harness, part),
    }
}

fn keep_part(harness: &mut Harness, part: &str) {
    match part.split_once('=') {
        Some((name, text)) => harness.keep_text(name, text),
        None => harness.fail(LineFault::Field),
    }
}
