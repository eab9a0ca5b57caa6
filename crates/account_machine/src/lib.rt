//! The plain machine of one account, by which the daemon's replies are judged: its state, what is
//! asked and answered, and the table of refusals.
#![tactic(auto)]

mod answer;
mod caller;
mod entry;
mod factor;
mod outline;
mod outlined;
mod request;
mod session;
mod table;
mod user;

pub use answer::{Answer, FactorLine, FactorLines, FileNames, Refused};
pub use caller::Caller;
pub use entry::{Entry, Told};
pub use factor::{Factor, Kind, Mark};
pub use outlined::Outlined;
pub use request::{Request, Turn};
pub use session::{Intent, Session, Sessions, Token};
pub use table::{
    MOST_FACTORS, MOST_FILE_BYTES, MOST_FILES, MOST_PINS, is_secret, names_tree, refusal,
    turn_refusal,
};
pub use user::{Durable, User};
