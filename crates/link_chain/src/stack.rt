//! The nodes behind a chain, as a stack.
ghost use Rattle.std.specs.Prelude.{◌≡◌, List, [], ◌∷◌, None, MatchOption};

use std::marker::Model;
use std::mem::replace;

/// Entries, the newest first.
#[cycle(stack)]
pub struct Stack<E> {
    pub(crate) top: Top<E>,
}

#[cycle(stack)]
pub(crate) enum Top<E> {
    End,
    More(Box<Node<E>>),
}

#[cycle(stack)]
pub(crate) struct Node<E> {
    // There is none in the node of a link alone.
    pub(crate) entry: Option<E>,
    pub(crate) below: Stack<E>,
}

impl<E> Model for Stack<E> {
    ghost use Rattle.std.specs.Prelude.{List, length};

    ghost Value = { List E };

    ghost use Rattle.link_chain.specs.Stack.{entries, IsFilled};

    ghost view = { λ stack. entries stack.top };

    ghost invariant = { λ stack. IsFilled stack.top };

    ghost size = { length };

    ghost use Rattle.std.proofs.Common.{arith, length-append};

    ghost size_decreases = { λ stack filled. Prim.grind (arith, length-append) };
}

impl<E> Stack<E> {
    pub(crate) fn empty() -> Stack<E>
        ensures { result ≡ [] }
    {
        Stack { top: Top::End }
    }

    // Takes the newest entry.
    pub(crate) fn pop(&mut self) -> Option<E>
        ensures { MatchOption result
            ((self.old ≡ []) × (self.new ≡ []))
            (λ entry. self.old ≡ entry ∷ self.new) }
    {
        match replace(&mut self.top, Top::End) {
            Top::End => None,
            Top::More(node) => {
                let Node { entry, below } = Box::into_inner(node);
                let Stack { top } = below;
                let ended = Stack {
                    top: replace(&mut self.top, top),
                };
                ended.destroy_empty();
                Some(entry.unwrap())
            }
        }
    }

    pub(crate) fn destroy_empty(self)
        requires { self ≡ [] }
    {
        let Stack { top } = self;
        match top {
            Top::End => {}
            Top::More(_node) => unreachable!(),
        }
    }
}

// Lets an option go that has no value.
pub(crate) fn destroy_none<E>(entry: Option<E>)
    requires { entry ≡ None }
{
    match entry {
        None => {}
        Some(_entry) => unreachable!(),
    }
}
