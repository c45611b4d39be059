use crate::escapes::unescape;
use crate::fault::LineFault;
use std::alloc::Global;

/// Fields with spaces between, of which one after another is taken.
#[derive(Clone, Copy)]
pub struct Fields<'a> {
    rest: &'a str,
    is_wrong: bool,
}

impl<'a> Fields<'a> {
    /// The fields of a line.
    pub fn new(fields: &'a str) -> Fields<'a> {
        Fields {
            rest: fields,
            is_wrong: false,
        }
    }

    /// The next field, behind which there is to be a rest.
    pub fn word(&mut self) -> &'a str {
        match self.rest.split_once(' ') {
            Some((field, rest)) => {
                self.rest = rest;
                field
            }
            None => {
                self.is_wrong = true;
                ""
            }
        }
    }

    /// The next field as a digest in hexadecimal digits.
    pub fn digest(&mut self) -> [u8; 32] {
        match digest(self.word()) {
            Ok(bytes) => bytes,
            Err(_) => {
                self.is_wrong = true;
                [0; 32]
            }
        }
    }

    /// The next field as a number in decimal digits.
    pub fn number(&mut self) -> u32 {
        match self.word().parse::<u32>() {
            Ok(number) => number,
            Err(_) => {
                self.is_wrong = true;
                0
            }
        }
    }

    /// What follows the fields that were taken, where none of them was wrong.
    pub fn rest(self) -> Result<&'a str, LineFault> {
        if self.is_wrong {
            return Err(LineFault::Field);
        }
        Ok(self.rest)
    }
}

/// The bytes that hexadecimal digits spell, the digits with their escapes.
pub fn hex_bytes(alloc: Global, text: &str) -> Result<Vec<u8>, LineFault> {
    let digits = unescape(alloc, text)?;
    Ok(hex::decode(alloc, digits.as_slice())?)
}

/// The first field of fields with spaces between, and the rest. There is to be a rest.
pub fn first_field(fields: &str) -> Result<(&str, &str), LineFault> {
    match fields.split_once(' ') {
        Some(split) => Ok(split),
        None => Err(LineFault::Field),
    }
}

/// Two sources with ` <=> ` between them.
pub fn two_sources(sources: &str) -> Result<(&str, &str), LineFault> {
    match sources.split_once(" <=> ") {
        Some(split) => Ok(split),
        None => Err(LineFault::Field),
    }
}

/// The digest that 64 hexadecimal digits spell.
pub fn digest(text: &str) -> Result<[u8; 32], LineFault> {
    let mut bytes = [0; 32];
    hex::decode_to_slice(text, &mut bytes)?;
    Ok(bytes)
}

/// A number in decimal digits.
pub fn number(text: &str) -> Result<u32, LineFault> {
    Ok(text.parse::<u32>()?)
}
