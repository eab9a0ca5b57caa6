//! A box with one entry.
ghost use Rattle.std.specs.Prelude.{◌≡◌, IfOk};
ghost use Rattle.std.specs.Borrow.{sem};

use crate::stack::{Node, Stack, destroy_none};
use ct_bytes::NoMemory;
use std::alloc::Global;
use std::marker::Model;

/// A box that holds one entry, and has room for the link to another.
///
/// Contracts see it as its entry.
pub struct Link<E> {
    pub(crate) entry: E,
    // The entry stands beside its node, since no `&mut` can be lent out of a node that is known to be
    // blank.
    pub(crate) node: Box<Node<E>>,
}

impl<E> Model for Link<E> {
    ghost use Rattle.std.specs.Prelude.{◌≡◌};

    ghost Value = { E };

    ghost use Rattle.link_chain.specs.Link.{IsBlank};

    ghost view = { λ link. link.entry };

    ghost invariant = { λ link. IsBlank link.node.value };
}

impl<E> Link<E> {
    ghost use Rattle.std.specs.Prelude.{◌≡◌, IfOk};
    ghost use Rattle.std.specs.Borrow.{sem};
    ghost use Rattle.link_chain.specs.Lending.{LendsEntry};

    /// The entry.
    pub fn entry(&self) -> &E
        ensures { result.now ≡ self.now }
    {
        &self.entry
    }

    /// The entry, to be changed.
    pub fn entry_mut(&mut self) -> &mut E
        ensures* writes_back { sem 𝓛 (LendsEntry E.row self.entry result) }
        ensures value { result.now ≡ self.old }
    {
        &mut self.entry
    }
}

impl<E> Link<E> {
    ghost use Rattle.std.specs.Prelude.{◌≡◌};
    ghost use Rattle.link_chain.specs.Link.{IsBlank};

    // The entry, and the room that was brought for it.
    pub(crate) fn into_parts(self) -> (E, Box<Node<E>>)
        ensures entry { result.0 ≡ self }
        ensures blank { IsBlank result.1.value }
    {
        let Link { entry, node } = self;
        (entry, node)
    }
}

impl<E: Drop> Link<E> {
    /// Takes the memory for the link of one entry. Where there is none, the entry is dropped.
    pub fn new(alloc: Global, entry: E) -> Result<Link<E>, NoMemory>
        ensures { IfOk result (λ link. link ≡ entry) }
    {
        let blank = Node {
            entry: None,
            below: Stack::empty(),
        };
        match Box::new(alloc, blank) {
            Ok(node) => Ok(Link { entry, node }),
            Err(failed) => {
                let Node {
                    entry: blank,
                    below,
                } = failed.value;
                below.destroy_empty();
                destroy_none(blank);
                Err(NoMemory)
            }
        }
    }
}

impl<E: Drop> Drop for Link<E> {
    fn drop(self) {
        let Link {
            entry: _entry,
            node,
        } = self;
        let Node {
            entry: blank,
            below,
        } = Box::into_inner(node);
        below.destroy_empty();
        destroy_none(blank);
    }
}
