//! The chain of links.
ghost use Rattle.std.specs.Prelude.{◌≡◌, [], ◌∷◌, ◌++◌, map, reverse, IfOk};

use crate::link::Link;
use crate::stack::{Stack, Top, destroy_none};
use ct_bytes::NoMemory;
use std::alloc::Global;
use std::marker::Model;
use std::mem::replace;

/// Entries, each in a box of its own.
///
/// Contracts see it as the list of the entries, the oldest first.
pub struct Chain<E> {
    stack: Stack<E>,
}

impl<E> Model for Chain<E> {
    ghost use Rattle.std.specs.Prelude.{List, reverse};

    ghost Value = { List E };

    ghost view = { λ chain. reverse chain.stack };
}

impl<E> Chain<E> {
    /// The chain with no entry. It takes no memory.
    pub fn empty() -> Chain<E>
        ensures { result ≡ [] }
    {
        Chain {
            stack: Stack::empty(),
        }
    }

    /// Hangs the link's entry at the end. It takes no memory.
    pub fn hang(self, link: Link<E>) -> Chain<E>
        ensures { result ≡ self ++ link ∷ [] }
    {
        let Chain { stack } = self;
        let (entry, mut node) = link.into_parts();
        destroy_none(replace(&mut node.entry, Some(entry)));
        replace(&mut node.below, stack).destroy_empty();
        Chain {
            stack: Stack {
                top: Top::More(node),
            },
        }
    }

    /// The entries in their order, the oldest first.
    pub fn in_order(&self, alloc: Global) -> Result<Vec<&E>, NoMemory>
        ensures { IfOk result (λ all. map (λ entry. entry.now) all.items ≡ self.now) }
    {
        let mut all = Vec::new(alloc);
        let mut at = &self.stack;
        while let Top::More(node) = &at.top {
            if let Some(entry) = &node.entry {
                all.push(entry)?;
            }
            at = &node.below;
        }
        all.reverse();
        Ok(all)
    }

    /// Lets a chain with no entry go, whatever its entries' type.
    pub fn destroy_empty(self)
        requires { self ≡ [] }
    {
        let Chain { stack } = self;
        stack.destroy_empty();
    }
}

// A loop, since a long chain dropped box in box would not fit the stack.
impl<E: Drop> Drop for Chain<E> {
    fn drop(self) {
        let Chain { mut stack } = self;
        while let Some(_entry) = stack.pop() {}
        stack.destroy_empty();
    }
}
