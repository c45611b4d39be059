use crate::fault::LineFault;
use std::alloc::{AllocError, Global};
use std::str;

/// The text of an answer, to which more and more is added. Where memory is wanting once there is no answer.
#[derive(Drop)]
pub struct Answer {
    text: String,
    lacks_memory: bool,
}

impl Answer {
    /// An answer without text.
    pub fn new(alloc: Global) -> Answer {
        Answer {
            text: String::new(alloc),
            lacks_memory: false,
        }
    }

    /// Whether it has no text.
    pub fn is_empty(&self) -> bool {
        self.text.is_empty()
    }

    /// Takes up that memory was wanting.
    pub fn lack_memory(&mut self) {
        self.lacks_memory = true;
    }

    /// Adds a text.
    pub fn put(&mut self, text: &str) {
        if self.text.push_str(text).is_err() {
            self.lacks_memory = true;
        }
    }

    /// Adds a text that was made.
    pub fn put_made(&mut self, text: Result<String, AllocError>) {
        match text {
            Ok(text) => self.put(text.as_str()),
            Err(_) => self.lacks_memory = true,
        }
    }

    /// Adds a text that was made, which is to be UTF-8.
    pub fn put_utf8_of(&mut self, text: Result<Vec<u8>, AllocError>) {
        match text {
            Ok(text) => self.put(str::from_utf8(text.as_slice()).unwrap_or("no UTF-8")),
            Err(_) => self.lacks_memory = true,
        }
    }

    /// Adds a number in decimal digits.
    pub fn put_number(&mut self, number: u64) {
        let alloc = *self.text.allocator();
        self.put_made(format!(in alloc; "{number}"));
    }

    /// Adds the hexadecimal digits of bytes.
    pub fn put_hex(&mut self, bytes: &[u8]) {
        let alloc = *self.text.allocator();
        self.put_made(hex::encode(alloc, bytes));
    }

    /// Adds the hexadecimal digits of bytes that were made.
    pub fn put_hex_of(&mut self, bytes: Result<Vec<u8>, AllocError>) {
        match bytes {
            Ok(bytes) => self.put_hex(bytes.as_slice()),
            Err(_) => self.lacks_memory = true,
        }
    }

    /// The text, where memory was never wanting.
    pub fn text(self) -> Result<String, LineFault> {
        let Answer { text, lacks_memory } = self;
        if lacks_memory {
            return Err(LineFault::NoMemory);
        }
        Ok(text)
    }
}
