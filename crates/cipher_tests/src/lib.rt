//! Tests of the ciphers against the vectors of their standards.
#![tactic(auto)]

#[cfg(test)]
mod aes;
#[cfg(test)]
mod gcm;
#[cfg(test)]
mod hmac;
#[cfg(test)]
mod scrypt;
