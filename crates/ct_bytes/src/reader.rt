//! Reading bytes piece after piece. Numbers are big-endian.

ghost use Rattle.std.specs.Prelude.{◌≡◌, ◌+◌, ◌++◌, length, Ok, Err, IfOk, OnOk, IfErr, OnErr};
ghost use Rattle.ct_bytes.specs.Reading.{start, bytes_at, u8_at, u16_at, u32_at, u64_at, field8_at, end_at};

use crate::ByteFault;
use std::marker::Model;

/// Bytes that are read from their front. A refusal leaves the reader as it is.
///
/// Contracts see the bytes that are left and how many stood before them.
#[derive(Debug, Drop)]
pub struct Reader<'a> {
    place: usize,
    left: &'a [u8],
}

impl<'a> Model for Reader<'a> {
    ghost use Rattle.std.specs.Prelude.{◌+◌, ◌<◌, ◌^◌, length};
    ghost use Rattle.ct_bytes.specs.Reading.{Unread};

    ghost Value = { Unread };

    ghost view = { λ r. record { place = r.place; left = r.left.now } };

    ghost invariant = { λ r. r.place + length r.left.now < 2 ^ 64 };
}

impl<'a> Reader<'a> {
    /// Reads from the first of `bytes` on.
    pub fn new(bytes: &'a [u8]) -> Reader<'a>
        ensures value { result ≡ start bytes.now }
    {
        Reader {
            place: 0,
            left: bytes,
        }
    }

    /// How many bytes were read.
    pub fn place(&self) -> usize
        ensures value { result ≡ self.now.place }
    {
        self.place
    }

    /// The next `count` bytes.
    ///
    /// `Short` where fewer are left.
    #[tactic(auto, unfolding(crate::specs::Reading::bytes_at))]
    pub fn take(&mut self, count: usize) -> Result<&'a [u8], ByteFault>
        ensures ok { IfOk result (λ field. bytes_at count self.old ≡ Ok (field.now, self.new)) }
        ensures err { IfErr result (λ fault. bytes_at count self.old ≡ Err fault) }
        ensures size { IfOk result (λ field. length field.now ≡ count) }
        ensures same { OnErr result (self.new ≡ self.old) }
    {
        if count > self.left.len() {
            return Err(ByteFault::Short(self.place));
        }
        let (field, left) = self.left.split_at(count);
        self.left = left;
        self.place += count;
        Ok(field)
    }

    /// The next byte.
    ///
    /// `Short` where none is left.
    #[tactic(auto, unfolding(crate::specs::Reading::u8_at))]
    pub fn take_u8(&mut self) -> Result<u8, ByteFault>
        ensures ok { IfOk result (λ number. u8_at self.old ≡ Ok (number, self.new)) }
        ensures err { IfErr result (λ fault. u8_at self.old ≡ Err fault) }
        ensures same { OnErr result (self.new ≡ self.old) }
    {
        if self.left.is_empty() {
            return Err(ByteFault::Short(self.place));
        }
        let byte = self.left[0];
        self.left = &self.left[1..];
        self.place += 1;
        Ok(byte)
    }

    /// The number of the next two bytes.
    ///
    /// `Short` where fewer are left.
    #[tactic(auto, unfolding(crate::specs::Reading::u16_at))]
    pub fn take_u16(&mut self) -> Result<u16, ByteFault>
        ensures ok { IfOk result (λ number. u16_at self.old ≡ Ok (number, self.new)) }
        ensures err { IfErr result (λ fault. u16_at self.old ≡ Err fault) }
        ensures same { OnErr result (self.new ≡ self.old) }
    {
        let mut number = [0; 2];
        number.copy_from_slice(self.take(2)?);
        Ok(u16::from_be_bytes(number))
    }

    /// The number of the next four bytes.
    ///
    /// `Short` where fewer are left.
    #[tactic(auto, unfolding(crate::specs::Reading::u32_at))]
    pub fn take_u32(&mut self) -> Result<u32, ByteFault>
        ensures ok { IfOk result (λ number. u32_at self.old ≡ Ok (number, self.new)) }
        ensures err { IfErr result (λ fault. u32_at self.old ≡ Err fault) }
        ensures same { OnErr result (self.new ≡ self.old) }
    {
        let mut number = [0; 4];
        number.copy_from_slice(self.take(4)?);
        Ok(u32::from_be_bytes(number))
    }

    /// The number of the next eight bytes.
    ///
    /// `Short` where fewer are left.
    #[tactic(auto, unfolding(crate::specs::Reading::u64_at))]
    pub fn take_u64(&mut self) -> Result<u64, ByteFault>
        ensures ok { IfOk result (λ number. u64_at self.old ≡ Ok (number, self.new)) }
        ensures err { IfErr result (λ fault. u64_at self.old ≡ Err fault) }
        ensures same { OnErr result (self.new ≡ self.old) }
    {
        let mut number = [0; 8];
        number.copy_from_slice(self.take(8)?);
        Ok(u64::from_be_bytes(number))
    }

    /// A length byte, and so many bytes after it.
    ///
    /// `Short` at the length byte or behind it, where fewer are left.
    #[tactic(auto, unfolding(crate::specs::Reading::field8_at))]
    pub fn field8(&mut self) -> Result<&'a [u8], ByteFault>
        ensures ok { IfOk result (λ field. field8_at self.old ≡ Ok (field.now, self.new)) }
        ensures err { IfErr result (λ fault. field8_at self.old ≡ Err fault) }
        ensures same { OnErr result (self.new ≡ self.old) }
    {
        let mut next = Reader {
            place: self.place,
            left: self.left,
        };
        let size = next.take_u8()?;
        let field = next.take(size as usize)?;
        *self = next;
        Ok(field)
    }

    /// Whether all bytes were read.
    ///
    /// `Trailing` where some are left.
    #[tactic(auto, unfolding(crate::specs::Reading::end_at))]
    pub fn finish(&self) -> Result<(), ByteFault>
        ensures value { result ≡ end_at self.now }
    {
        if self.left.is_empty() {
            Ok(())
        } else {
            Err(ByteFault::Trailing(self.place))
        }
    }
}
