//! Clients of a home of many users, served side by side until their inputs end.
#![tactic(auto)]

mod clients;

pub use clients::{ServedClients, serve_clients};
