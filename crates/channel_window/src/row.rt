//! A list that goes on at its end, and of which a front goes.
ghost use Rattle.std.specs.Prelude.{◌≡◌, ◌≤◌, ◌++◌, [], OnOk, OnErr, drop, length, take};

use std::alloc::{AllocError, Global};
use std::marker::Model;
use std::mem::swap;

/// Values one after the other. Others come after them, and can be taken back; a front of them goes. They stand in one
/// piece, so that a reader has a slice of them.
#[derive(Drop)]
pub struct WindowRow<T> {
    items: Vec<T>,
}

impl<T> Model for WindowRow<T> {
    ghost use Rattle.std.specs.Prelude.{List};

    ghost Value = { List T };

    ghost view = { λ a. a.items.items };
}

impl<T> WindowRow<T> {
    /// A row without a value. Takes no memory.
    pub fn new(alloc: Global) -> WindowRow<T>
        ensures { result ≡ [] }
    {
        WindowRow {
            items: Vec::new(alloc),
        }
    }

    /// Its values.
    pub fn as_slice(&self) -> &[T]
        ensures { result.now ≡ self.now }
    {
        self.items.as_slice()
    }

    /// How many values it has.
    pub fn len(&self) -> usize
        ensures { result ≡ length self.now }
    {
        self.items.len()
    }
}

impl<T: Drop> WindowRow<T> {
    /// Moves the values of `come` behind the others. Fails only if an allocation fails, and the row is then as it was.
    pub fn append(&mut self, come: &mut Vec<T>) -> Result<(), AllocError>
        ensures ok { OnOk result (self.new ≡ self.old ++ come.old.items) }
        ensures err { OnErr result (self.new ≡ self.old) }
    {
        // The first values bring their room.
        if self.items.is_empty() {
            swap(&mut self.items, come);
            return Ok(());
        }
        self.items.append(come)
    }

    /// Takes back what was appended to the first `count` values. Takes no memory, and can't fail.
    pub fn take_back(&mut self, count: usize)
        ensures { self.new ≡ take count self.old }
    {
        self.items.truncate(count);
    }

    /// Lets the first `gone` values go. Takes no memory, and can't fail.
    pub fn let_go(&mut self, gone: usize)
        requires { gone ≤ length self.old }
        ensures { self.new ≡ drop gone self.old }
    {
        // (what stays isn't moved if nothing goes)
        if gone == 0 {
            return;
        }
        drop(self.items.drain(..gone));
    }
}
