//! What is derived of a secret.

/// What is derived of a secret: 64 bytes by scrypt, with this salt and this cost exponent, from 1 to 16.
#[derive(Clone, Copy, Debug)]
pub struct Derived {
    pub salt: [u8; 16],
    pub cost: u8,
    pub key: [u8; 64],
}
