use rho_lexer::{Token, lex};
use std::alloc::Global;
use table_lines::{Answer, LineFault};

/// The tokens of a text with their places, or its fault.
pub fn tokens(alloc: Global, text: &[u8]) -> Result<String, LineFault> {
    let mut answer = Answer::new(alloc);
    match lex(alloc, text) {
        Ok(tokens) => put_tokens(alloc, &mut answer, tokens.as_slice()),
        Err(fault) => answer.put_made(format!(in alloc; "{fault:?}")),
    }
    answer.text()
}

fn put_tokens(alloc: Global, answer: &mut Answer, tokens: &[Token]) {
    for token in tokens {
        if !answer.is_empty() {
            answer.put(" ");
        }
        let one = format!(in alloc; "{:?}@{}..{}", token.kind, token.start, token.end);
        answer.put_made(one);
    }
}

/// How many tokens a text has, or its fault.
pub fn token_count(alloc: Global, text: &[u8]) -> Result<String, LineFault> {
    let told = match lex(alloc, text) {
        Ok(tokens) => format!(in alloc; "{}", tokens.len()),
        Err(fault) => format!(in alloc; "{fault:?}"),
    };
    Ok(told?)
}
