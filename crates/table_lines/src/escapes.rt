use crate::fault::LineFault;
use std::alloc::Global;

/// The number of a time that a text is repeated, from 1, and how many times follow it.
#[derive(Clone, Copy)]
struct Turn {
    number: u32,
    left: u32,
}

const ONCE: Turn = Turn { number: 1, left: 0 };

/// The bytes of a text, as far as it was read.
#[derive(Drop)]
struct Unescaped {
    bytes: Vec<u8>,
    lacks_memory: bool,
    is_wrong: bool,
}

/// How far an escape is read.
#[derive(Clone, Copy)]
enum Escape {
    None,
    Begun,
    High,
    Low(u8),
}

/// The bytes that a text stands for. `\\` is a backslash, `\n`, `\r` and `\t` are a newline, a return and a tab, and
/// `\x` with two digits is a byte. `⟦3|ab⟧` is `ababab`; in it `\+` is the number of the time, from 1, and `\-` is
/// how many times follow.
pub fn unescape(alloc: Global, text: &str) -> Result<Vec<u8>, LineFault> {
    let mut read = Unescaped {
        bytes: Vec::new(alloc),
        lacks_memory: false,
        is_wrong: false,
    };
    read.put_pieces(text);
    read.bytes()
}

impl Unescaped {
    /// The bytes, where memory served and no escape was wrong.
    fn bytes(self) -> Result<Vec<u8>, LineFault> {
        let Unescaped {
            bytes,
            lacks_memory,
            is_wrong,
        } = self;
        if lacks_memory {
            return Err(LineFault::NoMemory);
        }
        if is_wrong {
            return Err(LineFault::Escape);
        }
        Ok(bytes)
    }

    fn push(&mut self, byte: u8) {
        if self.bytes.push(byte).is_err() {
            self.lacks_memory = true;
        }
    }

    fn put_pieces(&mut self, text: &str) {
        let mut pieces = text.split('⟦');
        if let Some(plain) = pieces.next() {
            self.put_text(plain, ONCE);
        }
        for piece in pieces {
            self.put_repeated(piece);
        }
    }

    fn put_repeated(&mut self, piece: &str) {
        match piece.split_once('⟧') {
            Some((inner, after)) => {
                self.put_inner(inner);
                self.put_text(after, ONCE);
            }
            None => self.is_wrong = true,
        }
    }

    fn put_inner(&mut self, inner: &str) {
        match inner.split_once('|') {
            Some((count, text)) => self.put_times(count, text),
            None => self.is_wrong = true,
        }
    }

    fn put_times(&mut self, count: &str, text: &str) {
        let Ok(count) = count.parse::<u32>() else {
            self.is_wrong = true;
            return;
        };
        for place in 0..count {
            let number = place + 1;
            let left = count - number;
            self.put_text(text, Turn { number, left });
        }
    }

    fn put_text(&mut self, text: &str, turn: Turn) {
        let mut escape = Escape::None;
        for byte in text.bytes() {
            escape = self.put_byte(escape, byte, turn);
        }
        if !matches!(escape, Escape::None) {
            self.is_wrong = true;
        }
    }

    fn put_byte(&mut self, escape: Escape, byte: u8, turn: Turn) -> Escape {
        match escape {
            Escape::None if byte == b'\\' => return Escape::Begun,
            Escape::None => self.push(byte),
            Escape::Begun => return self.put_escape(byte, turn),
            Escape::High => return Escape::Low(self.digit(byte)),
            Escape::Low(high) => {
                let low = self.digit(byte);
                self.push((high << 4) | low);
            }
        }
        Escape::None
    }

    fn put_escape(&mut self, byte: u8, turn: Turn) -> Escape {
        match byte {
            b'n' => self.push(b'\n'),
            b'r' => self.push(b'\r'),
            b't' => self.push(b'\t'),
            b'\\' => self.push(b'\\'),
            b'+' => self.put_number(turn.number),
            b'-' => self.put_number(turn.left),
            b'x' => return Escape::High,
            _ => self.is_wrong = true,
        }
        Escape::None
    }

    fn put_number(&mut self, number: u32) {
        let alloc = *self.bytes.allocator();
        match format!(in alloc; "{number}") {
            Ok(digits) => self.put_all(digits.as_str().as_bytes()),
            Err(_) => self.lacks_memory = true,
        }
    }

    fn put_all(&mut self, bytes: &[u8]) {
        if self.bytes.extend_from_slice(bytes).is_err() {
            self.lacks_memory = true;
        }
    }

    /// The value of a hexadecimal digit.
    fn digit(&mut self, byte: u8) -> u8 {
        match byte {
            b'0'..=b'9' => byte - b'0',
            b'a'..=b'f' => byte - b'a' + 10,
            _ => {
                self.is_wrong = true;
                0
            }
        }
    }
}
