//! What lies in memory of its own.
ghost use Rattle.std.specs.Prelude.{◌≡◌, IfOk};

use std::alloc::{AllocError, Global};
use std::marker::Model;

/// What lies in memory of its own, as a node among declarations or the literal behind a `%`. Each
/// declaration, statement and expression has room for the largest of its forms, and most are of
/// smaller ones.
#[derive(Drop)]
pub struct Apart<T: Drop> {
    content: Box<T>,
}

impl<T: Drop> Model for Apart<T> {
    ghost Value = { T };

    ghost view = { λ a. a.content.value };
}

impl<T: Drop> Apart<T> {
    pub fn new(alloc: Global, content: T) -> Result<Apart<T>, AllocError>
        ensures { IfOk result (λ a. a ≡ content) }
    {
        Ok(Apart {
            content: Box::new(alloc, content)?,
        })
    }

    pub fn content(&self) -> &T
        ensures { result.now ≡ self.now }
    {
        &*self.content
    }
}
