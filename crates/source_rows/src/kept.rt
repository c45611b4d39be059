use std::alloc::{AllocError, Global};

/// Values that are kept one after another. Where memory was wanting once there are none.
#[derive(Drop)]
pub struct Kept<T> {
    values: Vec<T>,
    lacks_memory: bool,
}

impl<T: Drop> Kept<T> {
    /// No values.
    pub fn new(alloc: Global) -> Kept<T> {
        Kept {
            values: Vec::new(alloc),
            lacks_memory: false,
        }
    }

    /// Takes up that memory was wanting.
    pub fn lack_memory(&mut self) {
        self.lacks_memory = true;
    }

    /// Keeps a value.
    pub fn put(&mut self, value: T) {
        if self.values.push(value).is_err() {
            self.lacks_memory = true;
        }
    }

    /// Keeps a value that was made.
    pub fn put_made(&mut self, value: Result<T, AllocError>) {
        match value {
            Ok(value) => self.put(value),
            Err(_) => self.lacks_memory = true,
        }
    }

    /// Keeps a value, where there is one.
    pub fn put_some(&mut self, value: Option<T>) {
        if let Some(value) = value {
            self.put(value);
        }
    }

    /// The values, where memory was never wanting.
    pub fn values(self) -> Result<Vec<T>, AllocError> {
        let Kept {
            values,
            lacks_memory,
        } = self;
        if lacks_memory {
            return Err(AllocError);
        }
        Ok(values)
    }
}
