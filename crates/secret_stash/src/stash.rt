//! The stash of a home.

ghost use Rattle.std.specs.Prelude.{◌≡◌, ℕ, ◌+◌, ◌<◌, ◌≤◌, List, length, slice_get, slice_index, IsTrue, IsSome, IfOk, IfSome, IfErr, OnOk, OnErr, IsOkUnless, is_some, Ok, Some, None};
ghost use Rattle.std.specs.FinMap as map;
ghost use Rattle.home_names.specs.Names.{is_account_name};
ghost use Rattle.home_names.specs.Names.{is_factor_label};
ghost use Rattle.stash_format.specs.Forms.{form_number};
ghost use Rattle.stash_format.specs.Record.{stash_read, stash_at};
ghost use Rattle.stash_format.specs.Kept.{HasRows, HasBoth};
ghost use Rattle.stash_format.specs.declared.block.Block.{Block as BlockSeen};
ghost use Rattle.stash_format.specs.Sizes.{payload_size, most_beside_payload, most_payload};
ghost use Rattle.secret_stash.specs.Faults.{Gives, Refuses};
ghost use Rattle.secret_stash.specs.Keys.{opened_block, opened_payload, new_block};
ghost use Rattle.secret_stash.specs.Edits.{new_stash, with_block, without_block, found_block, live_resets, with_payload};

use crate::edits::{put_block, put_payload, take_block};
use crate::fault::StashFault;
use crate::keys::{open_block, seal_block};
use crate::payloads::{open_payload, seal_payload};
use ct_bytes::{Blob, Text};
use name_map::{Copied, NameMap};
use stash_format::{Contents, Payload, read_contents, spell_contents};
use std::alloc::Global;
use std::marker::Model;

/// The stash of a home, seen as its account, its next edition, perhaps a sealed payload, and its
/// factors' blocks by label. Of which version the record was that it was read from isn't part of it.
#[derive(Debug, Drop)]
pub struct Stash {
    alloc: Global,
    contents: Contents,
}

impl Model for Stash {
    ghost use Rattle.stash_format.specs.declared.contents.Contents.{Contents as ContentsSeen};
    ghost use Rattle.secret_stash.specs.Coding.{coded_contents};
    ghost use Rattle.stash_format.specs.Kept.{IsStash};

    ghost Value = { ContentsSeen };

    ghost coded = { coded_contents };

    ghost view = { λ s. s.contents };

    ghost invariant = { λ s. IsStash s.contents };
}

impl Stash {
    /// The stash of a new home of this account, without factors. The only fault is `NoMemory`.
    pub fn new(alloc: Global, account: &str) -> Result<Stash, StashFault>
        requires account { IsTrue (is_account_name account.now) }
        ensures value { IfOk result (λ stash. stash ≡ new_stash account.now) }
        ensures fault { IsOkUnless result StashFault.NoMemory }
    {
        let contents = Contents {
            account: Text::from_str(alloc, account)?,
            next: 1,
            payload: None,
            blocks: NameMap::new(alloc),
        };
        Ok(Stash { alloc, contents })
    }

    /// The stash of a record, of version 1 or 2 (docs/FORMATS.md, "Stash record").
    ///
    /// `BadStash` with the first place where the bytes are outside the grammar.
    pub fn read(alloc: Global, bytes: &[u8]) -> Result<Stash, StashFault>
        ensures found { IfOk result (λ stash. stash_at bytes.now ≡ Some stash) }
        ensures exact { IfErr result (λ fault. Refuses fault (stash_read bytes.now)) }
        ensures rows { IfOk result (λ stash. HasRows stash.next stash.blocks) }
    {
        let contents = read_contents(alloc, bytes)?;
        Ok(Stash { alloc, contents })
    }

    /// The record of the stash, of version 2: at most 2,826 bytes besides its payload's text. The only
    /// fault is `NoMemory`.
    pub fn write(&self) -> Result<Blob, StashFault>
        requires both { HasBoth self.now }
        ensures read { IfOk result (λ bytes. stash_at bytes ≡ Some self.now) }
        ensures version { IfOk result (λ bytes. slice_index bytes 0 ≡ 2) }
        ensures size { IfOk result (λ bytes. length bytes ≤ most_beside_payload + payload_size self.now) }
        ensures fault { IsOkUnless result StashFault.NoMemory }
    {
        Ok(spell_contents(self.alloc, &self.contents)?)
    }

    /// An equal stash.
    pub fn copy(&self) -> Result<Stash, StashFault>
        ensures value { IfOk result (λ stash. stash ≡ self.now) }
        ensures fault { IsOkUnless result StashFault.NoMemory }
    {
        let payload = match &self.contents.payload {
            Some(sealed) => Some(sealed.copy()?),
            None => None,
        };
        let contents = Contents {
            account: self.contents.account.copy()?,
            next: self.contents.next,
            payload,
            blocks: self.contents.blocks.copy()?,
        };
        Ok(Stash {
            alloc: self.alloc,
            contents,
        })
    }

    /// The account.
    pub fn account(&self) -> &str
        ensures value { result.now ≡ self.now.account }
        ensures plain { IsTrue (is_account_name self.now.account) }
    {
        self.contents.account.as_str()
    }

    /// The edition that the next factor gets.
    pub fn next(&self) -> u64
        ensures value { result ≡ self.now.next }
        ensures from { 1 ≤ self.now.next }
        ensures rows { HasRows self.now.next self.now.blocks }
    {
        self.contents.next
    }

    /// Whether there is a payload.
    pub fn has_payload(&self) -> bool
        ensures value { result ≡ is_some self.now.payload }
    {
        self.contents.payload.is_some()
    }

    /// The number of bytes of the payload's encrypted text, and 0 where there is no payload.
    pub fn payload_size(&self) -> usize
        ensures value { result ≡ payload_size self.now }
    {
        match &self.contents.payload {
            Some(sealed) => sealed.text.as_slice().len(),
            None => 0,
        }
    }

    /// The number of blocks, at most 32.
    pub fn count(&self) -> usize
        ensures value { result ≡ map.len self.now.blocks }
        ensures few { map.len self.now.blocks ≤ 32 }
    {
        self.contents.blocks.len()
    }

    /// Label and edition of the block at a place in the order of labels, from 0.
    pub fn block(&self, at: usize) -> (&str, u64)
        requires { at < map.len self.now.blocks }
        ensures value { (block : BlockSeen) × (slice_get (map.entries self.now.blocks) at ≡ Some (result.0.now, block))
            × (result.1 ≡ block.edition) }
    {
        let row = &self.contents.blocks.rows()[at];
        (row.0.as_str(), row.1.edition)
    }

    /// The form of the block at a place in the order of labels: 1 where it is bound to nothing, 2 where it
    /// is bound to account, label and edition.
    pub fn form(&self, at: usize) -> u8
        requires { at < map.len self.now.blocks }
        ensures value { (label : List ℕ) × (block : BlockSeen) × (slice_get (map.entries self.now.blocks) at ≡ Some (label, block))
            × (result ≡ form_number block.form) }
    {
        self.contents.blocks.rows()[at].1.form.number()
    }

    /// Sets the edition that the next factor gets.
    pub fn set_next(&mut self, next: u64)
        requires from { 1 ≤ next }
        requires above { (label : List ℕ) → IfSome (map.get self.old.blocks label) (λ block. block.edition < next) }
        ensures value { self.new ≡ record self.old { next = next } }
    {
        self.contents.next = next;
    }

    /// The main key, from the block of a label under its wrap key.
    ///
    /// `NoBlock` where no block has the label, `BadTag` where the block's tag isn't that of the wrap key.
    pub fn open_with(&self, label: &str, wrap: &[u8; 32]) -> Result<[u8; 32], StashFault>
        ensures exact { Gives result (opened_block self.now label.now wrap.now) }
    {
        let label = Text::from_str(self.alloc, label)?;
        match self.contents.blocks.get(&label) {
            Some(block) => open_block(
                self.alloc,
                self.contents.account.as_str(),
                label.as_str(),
                block,
                wrap,
            ),
            None => Err(StashFault::NoBlock),
        }
    }

    /// What the payload holds, under the main key.
    ///
    /// `BadTag` where its tag isn't that of the main key; `BadStash` with a place in the opened bytes
    /// where these are outside the grammar.
    pub fn payload(&self, main: &[u8; 32]) -> Result<Payload, StashFault>
        requires { IsSome self.now.payload }
        ensures exact { Gives result (opened_payload self.now main.now) }
    {
        let Some(sealed) = &self.contents.payload else {
            unreachable!();
        };
        open_payload(self.alloc, self.contents.account.as_str(), sealed, main)
    }

    /// Seals a payload under the main key. Reset secrets that no block names by label and edition are
    /// left out, so its text has at most 945 bytes. No two payloads may be sealed under one key and IV.
    /// The only fault is `NoMemory`.
    pub fn set_payload(
        &mut self,
        main: &[u8; 32],
        payload: &Payload,
        iv: [u8; 12],
    ) -> Result<(), StashFault>
        requires few { map.len payload.now.resets ≤ 16 }
        ensures ok { OnOk result (self.new ≡ with_payload self.old main.now payload.now iv) }
        ensures opens { OnOk result (opened_payload self.new main.now
            ≡ Ok (record { vault = payload.now.vault; resets = live_resets self.old.blocks payload.now.resets })) }
        ensures size { OnOk result (payload_size self.new ≤ most_payload) }
        ensures err { OnErr result (self.new ≡ self.old) }
        ensures fault { IsOkUnless result StashFault.NoMemory }
    {
        let sealed = seal_payload(
            self.alloc,
            self.contents.account.as_str(),
            &self.contents.blocks,
            main,
            payload,
            iv,
        )?;
        put_payload(&mut self.contents, sealed);
        Ok(())
    }

    /// Wraps the main key for a factor, in the place of its label's block if it has one. No two keys may
    /// be wrapped under one key and IV. The only fault is `NoMemory`.
    pub fn add_block(
        &mut self,
        label: &str,
        edition: u64,
        wrap: &[u8; 32],
        main: &[u8; 32],
        iv: [u8; 12],
    ) -> Result<(), StashFault>
        requires label { IsTrue (is_factor_label label.now) }
        requires from { 1 ≤ edition }
        requires below { edition < self.old.next }
        requires room { map.get self.old.blocks label.now ≡ None → map.len self.old.blocks < 32 }
        ensures ok { OnOk result (self.new ≡ with_block self.old label.now
            (new_block self.old.account label.now edition wrap.now main.now iv)) }
        ensures err { OnErr result (self.new ≡ self.old) }
        ensures fault { IsOkUnless result StashFault.NoMemory }
    {
        let account = self.contents.account.as_str();
        let block = seal_block(self.alloc, account, label, edition, wrap, main, iv)?;
        let label = Text::from_str(self.alloc, label)?;
        Ok(put_block(&mut self.contents, label, block)?)
    }

    /// Takes the block of a label away.
    ///
    /// `NoBlock` where no block has the label.
    pub fn drop_block(&mut self, label: &str) -> Result<(), StashFault>
        ensures exact { Gives result (found_block self.old label.now) }
        ensures ok { OnOk result (self.new ≡ without_block self.old label.now) }
        ensures err { OnErr result (self.new ≡ self.old) }
    {
        let label = Text::from_str(self.alloc, label)?;
        if self.contents.blocks.get(&label).is_none() {
            return Err(StashFault::NoBlock);
        }
        take_block(&mut self.contents, &label);
        Ok(())
    }
}
