//! Writing bytes piece after piece. Numbers are big-endian.

ghost use Rattle.std.specs.Prelude.{◌≤◌, length};

use crate::ByteFault;

/// Bytes that are written from their front. A refusal leaves the writer as it is.
///
/// Contracts see the bytes that were written and those behind them.
#[derive(Debug, Drop)]
pub struct Writer<'a> {
    bytes: &'a mut [u8],
    used: usize,
    ghost within: { used ≤ length bytes.now },
}

impl<'a> Writer<'a> {
    ghost use Rattle.std.specs.Prelude.{◌≡◌, ◌+◌, ◌<◌, ◌++◌, ◌∷◌, [], drop, IsOk, IfOk, OnOk, IfErr, OnErr};
    ghost use Rattle.std.specs.Int.{w16, w32, w64, to_be_bytes};
    ghost use Rattle.ct_bytes.specs.Fields.{field8};
    ghost use Rattle.ct_bytes.specs.Writing.{written, behind, TooLongField};

    /// Writes from the first of `bytes` on.
    pub fn new(bytes: &'a mut [u8]) -> Writer<'a>
        ensures same_bytes { result.bytes.ghost_name ≡ bytes.entry.ghost_name }
        ensures written { written result ≡ [] }
        ensures behind { behind result ≡ bytes.old }
    {
        Writer { bytes, used: 0 }
    }

    /// How many bytes were written.
    pub fn used(&self) -> usize
        ensures value { result ≡ length (written self.now) }
    {
        self.used
    }

    /// Writes `bytes`.
    ///
    /// `TooLong` where they don't fit.
    pub fn put(&mut self, bytes: &[u8]) -> Result<(), ByteFault>
        ensures same_bytes { self.new.bytes.ghost_name ≡ self.old.bytes.ghost_name }
        ensures ok { OnOk result (written self.new ≡ written self.old ++ bytes.now) }
        ensures behind { OnOk result (behind self.new ≡ drop (length bytes.now) (behind self.old)) }
        ensures room { OnOk result (length (behind self.new) + length bytes.now ≡ length (behind self.old)) }
        ensures succeeds { length bytes.now ≤ length (behind self.old) → IsOk result }
        ensures too_long { IfErr result (λ fault. (fault ≡ ByteFault.TooLong) × (length (behind self.old) < length bytes.now)) }
        ensures err { OnErr result ((written self.new ≡ written self.old) × (behind self.new ≡ behind self.old)) }
    {
        if bytes.len() > self.bytes.len() - self.used {
            return Err(ByteFault::TooLong);
        }
        let end = self.used + bytes.len();
        self.bytes[self.used..end].copy_from_slice(bytes);
        self.used = end;
        Ok(())
    }

    /// Writes a number in a byte.
    ///
    /// `TooLong` where it doesn't fit.
    pub fn put_u8(&mut self, number: u8) -> Result<(), ByteFault>
        ensures same_bytes { self.new.bytes.ghost_name ≡ self.old.bytes.ghost_name }
        ensures ok { OnOk result (written self.new ≡ written self.old ++ (number ∷ [])) }
        ensures behind { OnOk result (behind self.new ≡ drop 1 (behind self.old)) }
        ensures room { OnOk result (length (behind self.new) + 1 ≡ length (behind self.old)) }
        ensures succeeds { 1 ≤ length (behind self.old) → IsOk result }
        ensures too_long { IfErr result (λ fault. (fault ≡ ByteFault.TooLong) × (length (behind self.old) < 1)) }
        ensures err { OnErr result ((written self.new ≡ written self.old) × (behind self.new ≡ behind self.old)) }
    {
        self.put(&[number])
    }

    /// Writes a number in two bytes.
    ///
    /// `TooLong` where they don't fit.
    pub fn put_u16(&mut self, number: u16) -> Result<(), ByteFault>
        ensures same_bytes { self.new.bytes.ghost_name ≡ self.old.bytes.ghost_name }
        ensures ok { OnOk result (written self.new ≡ written self.old ++ to_be_bytes w16 number) }
        ensures behind { OnOk result (behind self.new ≡ drop 2 (behind self.old)) }
        ensures room { OnOk result (length (behind self.new) + 2 ≡ length (behind self.old)) }
        ensures succeeds { 2 ≤ length (behind self.old) → IsOk result }
        ensures too_long { IfErr result (λ fault. (fault ≡ ByteFault.TooLong) × (length (behind self.old) < 2)) }
        ensures err { OnErr result ((written self.new ≡ written self.old) × (behind self.new ≡ behind self.old)) }
    {
        self.put(&number.to_be_bytes())
    }

    /// Writes a number in four bytes.
    ///
    /// `TooLong` where they don't fit.
    pub fn put_u32(&mut self, number: u32) -> Result<(), ByteFault>
        ensures same_bytes { self.new.bytes.ghost_name ≡ self.old.bytes.ghost_name }
        ensures ok { OnOk result (written self.new ≡ written self.old ++ to_be_bytes w32 number) }
        ensures behind { OnOk result (behind self.new ≡ drop 4 (behind self.old)) }
        ensures room { OnOk result (length (behind self.new) + 4 ≡ length (behind self.old)) }
        ensures succeeds { 4 ≤ length (behind self.old) → IsOk result }
        ensures too_long { IfErr result (λ fault. (fault ≡ ByteFault.TooLong) × (length (behind self.old) < 4)) }
        ensures err { OnErr result ((written self.new ≡ written self.old) × (behind self.new ≡ behind self.old)) }
    {
        self.put(&number.to_be_bytes())
    }

    /// Writes a number in eight bytes.
    ///
    /// `TooLong` where they don't fit.
    pub fn put_u64(&mut self, number: u64) -> Result<(), ByteFault>
        ensures same_bytes { self.new.bytes.ghost_name ≡ self.old.bytes.ghost_name }
        ensures ok { OnOk result (written self.new ≡ written self.old ++ to_be_bytes w64 number) }
        ensures behind { OnOk result (behind self.new ≡ drop 8 (behind self.old)) }
        ensures room { OnOk result (length (behind self.new) + 8 ≡ length (behind self.old)) }
        ensures succeeds { 8 ≤ length (behind self.old) → IsOk result }
        ensures too_long { IfErr result (λ fault. (fault ≡ ByteFault.TooLong) × (length (behind self.old) < 8)) }
        ensures err { OnErr result ((written self.new ≡ written self.old) × (behind self.new ≡ behind self.old)) }
    {
        self.put(&number.to_be_bytes())
    }

    /// Writes a length byte, and `bytes`.
    ///
    /// `TooLong` where there are over 255 bytes, or they don't fit.
    pub fn put_field8(&mut self, bytes: &[u8]) -> Result<(), ByteFault>
        ensures same_bytes { self.new.bytes.ghost_name ≡ self.old.bytes.ghost_name }
        ensures ok { OnOk result (written self.new ≡ written self.old ++ field8 bytes.now) }
        ensures few { OnOk result (length bytes.now < 256) }
        ensures behind { OnOk result (behind self.new ≡ drop (1 + length bytes.now) (behind self.old)) }
        ensures room { OnOk result (length (behind self.new) + 1 + length bytes.now ≡ length (behind self.old)) }
        ensures succeeds { length bytes.now < 256 → 1 + length bytes.now ≤ length (behind self.old) → IsOk result }
        ensures too_long { IfErr result (λ fault. (fault ≡ ByteFault.TooLong) × TooLongField bytes.now (behind self.old)) }
        ensures err { OnErr result ((written self.new ≡ written self.old) × (behind self.new ≡ behind self.old)) }
    {
        if bytes.len() > 255 || bytes.len() >= self.bytes.len() - self.used {
            return Err(ByteFault::TooLong);
        }
        self.put_u8(bytes.len() as u8)?;
        self.put(bytes)
    }
}
