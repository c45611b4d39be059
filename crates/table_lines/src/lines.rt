use crate::fault::LineFault;
use std::io;

/// What is printed of an answer: where what a line is about is refused, that which is told of it.
pub fn told(answered: Result<String, LineFault>) -> Result<String, LineFault> {
    match answered {
        Err(LineFault::Refused(told)) => Ok(told),
        other => other,
    }
}

/// Prints a line with what is told behind it.
pub fn print_answer(rt: &impl Print, line: &str, told: &str) -> io::Result<()> {
    if told.is_empty() {
        return println!(rt; "{line} =>");
    }
    println!(rt; "{line} => {told}")
}
