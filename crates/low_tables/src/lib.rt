//! Answers about tokens, logs, seeds and states. A line is a kind and its fields.
#![tactic(auto)]

mod lexed;
mod logs;
mod seeds;
mod state_texts;

use std::alloc::Global;
use table_lines::{LineFault, unescape};

/// The answer to a line of this kind with this text.
fn answer_text(alloc: Global, word: &str, text: &[u8]) -> Result<String, LineFault> {
    match word {
        "tokens" => lexed::tokens(alloc, text),
        "token-count" => lexed::token_count(alloc, text),
        "digest" => seeds::digest_of(alloc, text),
        _ => Err(LineFault::Kind),
    }
}

/// The answer to a line of this kind with these fields.
pub fn answer(alloc: Global, word: &str, fields: &str) -> Result<String, LineFault> {
    match word {
        "write-log" => logs::write(alloc, fields),
        "read-log" => logs::read(alloc, fields),
        "cuts-of-log" => logs::cuts(alloc, fields),
        "seed" => seeds::seed(alloc, fields),
        "state" => state_texts::state(alloc, fields),
        "cuts-of-state" => state_texts::cut_states(alloc, fields),
        "changes-of-state" => state_texts::changed_states(alloc, fields),
        _ => answer_text(alloc, word, unescape(alloc, fields)?.as_slice()),
    }
}
