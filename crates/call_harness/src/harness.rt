//! Files and an output in memory over which the program is called, and what is told of it.
use crate::ended::{Ended, Outside, words_of};
use crate::meeting::Meeting;
use rho_outside::{MemShelf, MemSink, Shelf};
use std::alloc::{AllocError, Global};
use std::mem;
use table_lines::{LineFault, unescape};

/// Files and an output in memory over which the program is called, how its last call ended, and the text that is told of it. The first
/// fault of what is done here is kept, and answered in place of the text.
#[derive(Drop)]
pub struct Harness {
    pub alloc: Global,
    pub outside: Outside,
    pub ended: Ended,
    told: String,
    fault: Option<LineFault>,
}

impl Harness {
    /// No files, and nothing told.
    pub fn new(alloc: Global) -> Harness {
        Harness {
            alloc,
            outside: Outside {
                shelf: MemShelf::new(alloc),
                out: MemSink::new(alloc),
            },
            ended: Ended::new(alloc),
            told: String::new(alloc),
            fault: None,
        }
    }

    /// Takes up a fault, where it is the first.
    pub fn fail(&mut self, fault: LineFault) {
        let first = mem::replace(&mut self.fault, None);
        self.fault = first.or(Some(fault));
    }

    /// Takes up that memory was wanting, where it was.
    pub fn must_serve<T: Drop, E: Drop>(&mut self, done: Result<T, E>) {
        if done.is_err() {
            self.fail(LineFault::NoMemory);
        }
    }

    /// The call of the files with this number fails.
    pub fn fail_file(&mut self, call: u64) {
        let done = self.outside.shelf.failing.push(call);
        self.must_serve(done);
    }

    /// The next call of the files fails.
    pub fn fail_next_file(&mut self) {
        let call = self.outside.shelf.calls;
        self.fail_file(call);
    }

    /// The next call of the output fails.
    pub fn fail_next_put(&mut self) {
        let done = self.outside.out.failing.push(self.outside.out.calls);
        self.must_serve(done);
    }

    /// Keeps a file.
    pub fn keep(&mut self, name: &str, bytes: &[u8]) {
        let done = self.outside.shelf.keep(self.alloc, name, bytes);
        self.must_serve(done);
    }

    /// Keeps a file of bytes that were read.
    pub fn keep_read(&mut self, name: &str, bytes: Result<Vec<u8>, LineFault>) {
        match bytes {
            Ok(bytes) => self.keep(name, bytes.as_slice()),
            Err(fault) => self.fail(fault),
        }
    }

    /// Keeps a file of a text with escapes.
    pub fn keep_text(&mut self, name: &str, text: &str) {
        let bytes = unescape(self.alloc, text);
        self.keep_read(name, bytes);
    }

    /// There are no files, and no call of them fails.
    pub fn clear_files(&mut self) {
        self.outside.shelf = MemShelf::new(self.alloc);
    }

    /// Nothing was put, and no call of the output fails.
    pub fn clear_output(&mut self) {
        self.outside.out = MemSink::new(self.alloc);
    }

    /// Calls the program with the words of a text, which stand between spaces. Its workers pass a gate at which nobody waits.
    pub fn call<F: Fn(&Meeting, &[String], &mut Outside) -> Result<Ended, AllocError>>(
        &mut self,
        run: &F,
        text: &str,
    )
        requires { F.IsAlwaysCallable run.now }
    {
        self.call_at(run, &Meeting::open(), text);
    }

    /// The same with a gate.
    pub fn call_at<F: Fn(&Meeting, &[String], &mut Outside) -> Result<Ended, AllocError>>(
        &mut self,
        run: &F,
        gate: &Meeting,
        text: &str,
    )
        requires { F.IsAlwaysCallable run.now }
    {
        let Ok(words) = words_of(self.alloc, text) else {
            self.fail(LineFault::NoMemory);
            return;
        };
        match run(gate, words.as_slice(), &mut self.outside) {
            Ok(ended) => self.ended = ended,
            Err(AllocError) => self.fail(LineFault::NoMemory),
        }
    }

    /// Calls the program with the words of a text that was made.
    pub fn call_made<F: Fn(&Meeting, &[String], &mut Outside) -> Result<Ended, AllocError>>(
        &mut self,
        run: &F,
        text: Result<String, AllocError>,
    )
        requires { F.IsAlwaysCallable run.now }
    {
        match text {
            Ok(text) => self.call(run, text.as_str()),
            Err(_) => self.fail(LineFault::NoMemory),
        }
    }

    /// Tells a text.
    pub fn tell(&mut self, text: &str) {
        let done = self.told.push_str(text);
        self.must_serve(done);
    }

    /// Tells a text that was made.
    pub fn tell_made(&mut self, text: Result<String, AllocError>) {
        match text {
            Ok(text) => self.tell(text.as_str()),
            Err(_) => self.fail(LineFault::NoMemory),
        }
    }

    /// Tells a text, where something was told since so many bytes were.
    pub fn tell_since(&mut self, count: usize, text: &str) {
        if self.told.len() > count {
            self.tell(text);
        }
    }

    /// How many bytes were told.
    pub fn told_count(&self) -> usize {
        self.told.len()
    }

    /// What was told, where nothing had a fault.
    pub fn told(self) -> Result<String, LineFault> {
        let Harness { told, fault, .. } = self;
        match fault {
            None => Ok(told),
            Some(fault) => Err(fault),
        }
    }
}
