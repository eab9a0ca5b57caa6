//! Tests of the machine of all requests, its sessions and its language.
#![tactic(auto)]

#[cfg(test)]
mod answers;
#[cfg(test)]
mod fault_scripts;
#[cfg(test)]
mod limit_scripts;
#[cfg(test)]
mod lines;
#[cfg(test)]
mod moments;
#[cfg(test)]
mod pin_scripts;
#[cfg(test)]
mod refusal_scripts;
#[cfg(test)]
mod replies;
#[cfg(test)]
mod requests;
#[cfg(test)]
mod script;
#[cfg(test)]
mod session_scripts;
