//! A reader and writer of one byte a call.
use rho_outside::KeepFault;
use rho_outside::system::{ReadFault, read_up_to, write_whole};
use std::alloc::Global;
use std::io;
use std::io::{ErrorKind, Read, Write};

/// Gives and takes one byte a call, `left` of them, and then nothing; its call number `stops_at` ends by `kind`.
#[derive(Drop)]
struct Slow {
    calls: u64,
    left: u64,
    stops_at: u64,
    kind: ErrorKind,
}

impl Slow {
    fn new(left: u64, stops_at: u64, kind: ErrorKind) -> Slow {
        Slow {
            calls: 0,
            left,
            stops_at,
            kind,
        }
    }

    /// Whether a byte goes through in this call, of a buffer that may be empty.
    fn passes(&mut self, is_empty: bool) -> io::Result<bool> {
        self.calls = self.calls.saturating_add(1);
        if self.calls == self.stops_at {
            return Err(io::Error::from(self.kind));
        }
        if self.left == 0 || is_empty {
            return Ok(false);
        }
        self.left -= 1;
        Ok(true)
    }
}

impl Read for Slow {
    fn read(&mut self, buf: &mut [u8]) -> io::Result<usize> {
        if !self.passes(buf.is_empty())? || buf.is_empty() {
            return Ok(0);
        }
        buf[0] = b'x';
        Ok(1)
    }
}

impl Write for Slow {
    fn write(&mut self, buf: &[u8]) -> io::Result<usize> {
        if !self.passes(buf.is_empty())? || buf.is_empty() {
            return Ok(0);
        }
        Ok(1)
    }

    fn flush(&mut self) -> io::Result<()> {
        Ok(())
    }
}

/// How many bytes are read up to a limit of a reader of three, whose second call ends by `kind`.
pub fn read_slowly(alloc: Global, limit: u64, kind: ErrorKind) -> Result<usize, ReadFault> {
    let mut source = Slow::new(3, 2, kind);
    match read_up_to(&mut source, alloc, limit) {
        Ok(bytes) => Ok(bytes.len()),
        Err(fault) => Err(fault),
    }
}

/// What a write of three bytes comes to where so many are taken and the second call ends by `kind`, and the faults counted.
pub fn write_slowly(left: u64, kind: ErrorKind) -> (Result<(), KeepFault>, u64) {
    let mut faults = 0;
    let mut full = Slow::new(left, 2, kind);
    let written = write_whole(&mut full, b"abc", &mut faults);
    (written, faults)
}
