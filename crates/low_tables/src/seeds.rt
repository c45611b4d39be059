use calculus::Digest;
use name_seed::{Seed, bytes_digest};
use std::alloc::Global;
use table_lines::{Fields, LineFault, digest, first_field, number};

/// The digest of bytes.
pub fn digest_of(alloc: Global, bytes: &[u8]) -> Result<String, LineFault> {
    Ok(hex::encode(alloc, bytes_digest(bytes).0.as_slice())?)
}

/// The digest of a seed. The fields are `system N`, `start ROOT SOURCE` or `comm REPEAT CONT TAKEN ..`, and then any of
/// `/ split N`, `/ fresh N` and `/ body`.
pub fn seed(alloc: Global, fields: &str) -> Result<String, LineFault> {
    let mut steps = fields.split(" / ");
    let mut seed = first_seed(alloc, steps.next().unwrap_or(""))?;
    for step in steps {
        seed = next_seed(&seed, step)?;
    }
    Ok(hex::encode(alloc, seed.digest().0.as_slice())?)
}

/// The digest that 64 hexadecimal digits spell.
pub fn read_id(digits: &str) -> Result<Digest, LineFault> {
    Ok(Digest(digest(digits)?))
}

/// Digests with spaces between.
pub fn ids(alloc: Global, fields: &str) -> Result<Vec<Digest>, LineFault> {
    let mut ids = Vec::new(alloc);
    for id in fields.split(' ') {
        ids.push(read_id(id)?)?;
    }
    Ok(ids)
}

fn first_seed(alloc: Global, fields: &str) -> Result<Seed, LineFault> {
    let (name, rest) = first_field(fields)?;
    match name {
        "system" => Ok(Seed::system(number(rest)?)),
        "start" => start_seed(rest),
        "comm" => comm_seed(alloc, rest),
        _ => Err(LineFault::Field),
    }
}

fn start_seed(fields: &str) -> Result<Seed, LineFault> {
    let mut fields = Fields::new(fields);
    let root = Digest(fields.digest());
    let source = read_id(fields.rest()?)?;
    Ok(Seed::start(&root, &source))
}

fn comm_seed(alloc: Global, fields: &str) -> Result<Seed, LineFault> {
    let mut fields = Fields::new(fields);
    let repeat = fields.number();
    let cont = Digest(fields.digest());
    let taken = ids(alloc, fields.rest()?)?;
    if taken.len() > 16 {
        return Err(LineFault::Field);
    }
    Ok(Seed::comm(&cont, taken.as_slice(), repeat))
}

fn next_seed(seed: &Seed, step: &str) -> Result<Seed, LineFault> {
    let (name, place) = step.split_once(' ').unwrap_or((step, ""));
    if name == "body" {
        return Ok(seed.body());
    }
    let place = number(place)?;
    match name {
        "split" => Ok(seed.split(place)),
        "fresh" => Ok(seed.fresh(place)),
        _ => Err(LineFault::Field),
    }
}
