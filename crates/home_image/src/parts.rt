//! What the laws are about.

ghost use Rattle.home_image.specs.Parts.{Meaning};

/// The kinds of data of an account, and what they mean to one another.
pub trait Parts {
    /// What an account has on the platform: its records, and its leaves as plain data.
    type Contents;
    /// A device step with its account and its reply.
    type Step;
    /// The durable part of a user.
    type Durable;
    /// A user of the machine.
    type User;
    /// A turn in a book.
    type Entry;
    /// The state of an account in memory.
    type State;

    ghost meaning: { Meaning Self.Contents Self.Step Self.Durable Self.User Self.Entry Self.State };
}
