//! Lists that contracts see as their items.

ghost use Rattle.std.specs.Prelude.{◌≡◌, [], IfOk, length};

use std::alloc::{AllocError as NoMemory, Global};
use std::marker::Model;

/// A list that contracts see as the list of its items, so that a copy equals what it copies.
#[derive(Debug, Drop)]
pub struct Listed<T> {
    items: Vec<T>,
}

impl<T> Model for Listed<T> {
    ghost use Rattle.std.specs.Prelude.{List};
    ghost use Rattle.std.specs.Coded.{coded_list};

    ghost Value = { List T };

    ghost coded = { coded_list T.code };

    ghost view = { λ it. it.items.items };
}

impl<T> Listed<T> {
    /// The empty list.
    pub fn new(alloc: Global) -> Listed<T>
        ensures { result ≡ [] }
    {
        Listed {
            items: Vec::new(alloc),
        }
    }

    pub fn from_vec(items: Vec<T>) -> Listed<T>
        ensures { result ≡ items.items }
    {
        Listed { items }
    }

    pub fn into_vec(self) -> Vec<T>
        ensures { result.items ≡ self }
    {
        let Listed { items } = self;
        items
    }

    pub fn as_slice(&self) -> &[T]
        ensures { result.now ≡ self.now }
    {
        self.items.as_slice()
    }
}

impl<T: Copy> Listed<T> {
    /// A list of the same items.
    pub fn copied(&self, alloc: Global) -> Result<Listed<T>, NoMemory>
        ensures { IfOk result (λ it. it ≡ self.now) }
    {
        let items = Vec::from_slice(alloc, self.items.as_slice())?;
        Ok(Listed { items })
    }
}
