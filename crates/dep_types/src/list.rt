//! Values in their order.
ghost use Rattle.std.specs.Prelude.{◌≡◌, ◌∷◌, [], List, IfOk};

use std::alloc::{AllocError, Global};
use std::marker::Model;

/// Values in their order, of which none is added any more. Contracts see them as their list.
#[derive(Drop)]
pub struct List<T> {
    values: Vec<T>,
}

impl<T> Model for List<T> {
    ghost Value = { List T };

    ghost view = { λ l. l.values.items };
}

impl<T> List<T> {
    /// Takes the values over without a copy.
    pub fn from_vec(values: Vec<T>) -> List<T>
        ensures { result ≡ values.items }
    {
        List { values }
    }

    /// No value. It takes no memory.
    pub fn empty(alloc: Global) -> List<T>
        ensures { result ≡ [] }
    {
        List {
            values: Vec::new(alloc),
        }
    }

    /// The values, without a copy.
    pub fn as_slice(&self) -> &[T]
        ensures { result.now ≡ self.now }
    {
        self.values.as_slice()
    }
}

impl<T: Drop> List<T> {
    /// One value. An `Err` is lack of memory.
    pub fn one(alloc: Global, value: T) -> Result<List<T>, AllocError>
        ensures { IfOk result (λ list. list ≡ value ∷ []) }
    {
        let mut values = Vec::new(alloc);
        values.push(value)?;
        Ok(List { values })
    }
}
