use crate::ScopeFault;
use crate::parse_fault::ParseFault;
use rho_lexer::LexFault;

/// Why a source is refused, or that memory is wanted.
#[derive(Debug, Drop, PartialEq, Eq)]
pub enum SourceFault {
    /// It has no tokens.
    Lex(LexFault),
    /// Its tokens spell nothing within the height.
    Parse(ParseFault),
    /// Its process breaks a rule of scope.
    Scope(ScopeFault),
}
