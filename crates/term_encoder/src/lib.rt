//! The canonical bytes of normal terms and of rows, their lengths, and the keys that are digests of them.
#![tactic(auto)]

pub mod encode;
mod encoder;
pub mod keys;
pub mod length;
pub mod ops;

pub use encode::{encode_part, encode_term};
pub use keys::{group_key, shard_of};
pub use length::code_len;
pub use ops::{encode_op, op_key};
