//! The canonical codes of normal terms: terms are written, measured and read, and keys are digests of codes.
#![tactic(auto)]

mod decode;
mod patterns;
mod terms;

pub use code_faults::{CodeFault, ReadFault, Sense};
pub use code_fields::{Reader, check_order};
pub use decode::{decode_term, read_name_pats, read_term, read_terms};
pub use term_encoder::{code_len, encode_part, encode_term, group_key, shard_of};
