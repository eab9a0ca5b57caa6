//! A key that was derived ahead of its turn.

ghost use Rattle.std.specs.Prelude.{◌≡◌};
ghost use Rattle.scrypt_kdf.specs.Derive.{derive};

use ct_bytes::Text;
use stored_home::Derived;

/// What is derived of a secret, with the secret.
#[derive(Drop)]
pub(crate) struct Prepared {
    pub(crate) secret: Text,
    pub(crate) derived: Derived,
    ghost of: { derived.key ≡ derive secret derived.salt derived.cost },
}
