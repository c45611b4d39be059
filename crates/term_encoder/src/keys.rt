// Digests of the codes of channels.
ghost use Rattle.std.specs.Prelude.{◌≡◌, map, IfOk};
ghost use Rattle.sha2.specs.Sha256.{sha256};
ghost use Rattle.calculus.specs.Code.{code};
ghost use Rattle.calculus.specs.Order.{IsAscending};
ghost use Rattle.calculus.specs.Root.{group_code};
ghost use Rattle.calculus.specs.Storing.{shard};

use crate::encode::{encode_term, put_term};
use crate::encoder::Encoder;
use calculus::Digest;
use rho_term::Term;
use sha2::{Digest as Hasher, Sha256};
use std::alloc::{AllocError, Global};

/// The shard of a channel, from 0 to 63: the first byte of the SHA-256 of its code, modulo 64. Want of
/// memory is the one error.
pub fn shard_of(alloc: Global, channel: &Term) -> Result<u32, AllocError>
    ensures { IfOk result (λ s. s ≡ shard channel.now) }
{
    let bytes = encode_term(alloc, channel)?;
    let digest = Sha256::digest(bytes.as_slice());
    Ok((digest[0] % 64) as u32)
}

/// The key of a group of channels, which ascend in their codes: the SHA-256 of the code of the list of
/// them. Want of memory is the one error.
pub fn group_key(alloc: Global, channels: &[Term]) -> Result<Digest, AllocError>
    requires { IsAscending (map code channels.now) }
    ensures { IfOk result (λ d. d.0 ≡ sha256 (group_code (map code channels.now))) }
{
    let mut out = Encoder::new(alloc);
    out.be32(channels.len());
    for channel in channels {
        put_term(&mut out, channel);
    }
    let bytes = out.finish()?;
    Ok(Digest(Sha256::digest(bytes.as_slice())))
}
