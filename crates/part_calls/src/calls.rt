use rho_lanes::first_difference;
use std::alloc::{AllocError, Global};
use system_names::uri_name;
use table_lines::Case;

// Equal bytes differ nowhere, and bytes of which one is another differ there.
fn must_be_found(case: &mut Case, bytes: &[u8], other: &mut Vec<u8>) {
    case.must(first_difference(bytes, other.as_slice()) == None);
    for place in 0..other.len() {
        other[place] ^= 1;
        case.must(first_difference(bytes, other.as_slice()) == Some(place));
        other[place] ^= 1;
    }
}

/// Of each length up to 130, with one byte that is another at each place.
pub fn the_first_difference_is_found(alloc: Global) -> Result<Case, AllocError> {
    let mut case = Case::new();
    let mut bytes = Vec::new(alloc);
    let mut other = Vec::new(alloc);
    for byte in 0..131u8 {
        must_be_found(&mut case, bytes.as_slice(), &mut other);
        bytes.push(byte)?;
        other.push(byte)?;
    }
    Ok(case)
}

fn has_name(alloc: Global, uri: &str) -> Result<bool, AllocError> {
    Ok(uri_name(alloc, uri)?.is_some())
}

pub fn two_uris_have_names(alloc: Global) -> Result<Case, AllocError> {
    let mut case = Case::new();
    case.must(has_name(alloc, "rho:io:stdout")?);
    case.must(has_name(alloc, "rho:io:stdoutAck")?);
    case.must(!has_name(alloc, "rho:io:stdin")?);
    Ok(case)
}
