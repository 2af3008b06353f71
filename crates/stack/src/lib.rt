// A stack over a lent slice: it allocates nothing, and refuses a push when the slice is full.
#![tactic(auto)]

ghost use Rattle.std.specs.Prelude.{◌≡◌, ◌≤◌, length};
ghost use Rattle.stack.specs.Moves.{Popped, Pushed};

use std::error::Error;
use std::fmt;

// The first `len` places of `items` are in use; the last of them is on top.
// A lent slice with a length beside it, since the kernel that uses it has no heap.
#[derive(Drop)]
pub struct Stack<'a, E> {
    items: &'a mut [E],
    len: usize,
    ghost fits: { len ≤ length items.now },
}

// There was no room for one more.
#[derive(Clone, Copy, Debug, PartialEq, Eq)]
pub struct Full;

impl fmt::Display for Full {
    ghost use Rattle.std.specs.Prelude.{Some, codes};

    ghost output = { λ _. Some (codes "the stack is full") };

    fn fmt<W: fmt::Write>(&self, f: &mut fmt::Formatter<W>) -> fmt::Result {
        f.write_str("the stack is full")
    }
}

impl Error for Full {}

impl<'a, E: Copy> Stack<'a, E> {
    // An empty stack over the whole of `items`.
    pub fn new(items: &'a mut [E]) -> Stack<'a, E>
        ensures empty { result.len ≡ 0 }
        ensures same { result.items.now ≡ items.old }
        ensures held { result.items.ghost_name ≡ items.entry.ghost_name }
    {
        Stack { items, len: 0 }
    }

    // Puts `x` on top, unless every place is in use.
    pub fn push(&mut self, x: E) -> Result<(), Full>
        ensures pushed { Pushed result self.old.len self.old.items.now x self.new.len self.new.items.now }
        ensures held { self.new.items.ghost_name ≡ self.old.items.ghost_name }
    {
        if self.len >= self.items.len() {
            return Err(Full);
        }
        self.items[self.len] = x;
        self.len += 1;
        Ok(())
    }

    // Takes the top off, unless the stack is empty.
    pub fn pop(&mut self) -> Option<E>
        ensures popped { Popped result self.old.len self.old.items.now self.new.len self.new.items.now }
        ensures held { self.new.items.ghost_name ≡ self.old.items.ghost_name }
    {
        if self.len == 0 {
            return None;
        }
        self.len -= 1;
        Some(self.items[self.len])
    }
}
