//! What a share in memory holds.

use crate::leaf::MemLeaf;
use crate::leaf_key::LeafKey;
use ct_bytes::{Blob, NoMemory};
use pw_path::Label;
use record_names::RecordName;
use share_api::Write;
use std::alloc::Global;
use std::collections::BTreeMap;

/// Records by name, leaves by label, and the label of a leaf whose insert failed.
#[derive(Drop)]
pub struct Held {
    pub alloc: Global,
    pub records: BTreeMap<RecordName, Blob>,
    pub leaves: BTreeMap<LeafKey, MemLeaf>,
    pub doubt: Option<Label>,
}

impl Held {
    ghost use Rattle.std.specs.Prelude.{◌≡◌, ◌⊎◌, ◌<◌, None, Some, OnOk, OnErr, IfOk, IsSome, option_copied};
    ghost use Rattle.std.specs.FinMap.{get, insert, remove, keys};
    ghost use Rattle.share_api.specs.Contents.{no_contents, settled};
    ghost use Rattle.share_api.specs.Steps.{done, with_leaf, doubted};
    ghost use Rattle.share_api.specs.declared.step.Write.{Write};
    ghost use Rattle.mem_share.specs.Held.{contents_of, leaves_of, records_of};

    /// Nothing.
    pub fn new(alloc: Global) -> Held
        ensures value { contents_of result ≡ no_contents }
    {
        Held {
            alloc,
            records: BTreeMap::new(alloc),
            leaves: BTreeMap::new(alloc),
            doubt: None,
        }
    }

    /// Takes a leaf away whose insert failed.
    pub fn settle(&mut self)
        ensures value { contents_of self.new ≡ settled (contents_of self.old) }
    {
        if let Some(label) = self.doubt {
            self.leaves.remove(&LeafKey { label });
            self.doubt = None;
        }
    }

    /// The bytes of a record.
    pub fn record(&self, name: &RecordName) -> Option<&Blob>
        ensures value { option_copied result ≡ get (records_of self.now) name.now }
    {
        self.records.get(name)
    }

    /// A leaf.
    pub fn leaf(&self, label: Label) -> Option<MemLeaf>
        ensures value { result ≡ get (leaves_of self.now) label }
    {
        self.leaves.get(&LeafKey { label }).copied()
    }

    /// Makes or replaces a record.
    pub fn put(&mut self, name: RecordName, bytes: Blob) -> Result<(), NoMemory>
        ensures ok { OnOk result (contents_of self.new ≡ done (Write.Put name bytes) (contents_of self.old)) }
        ensures err { OnErr result (contents_of self.new ≡ contents_of self.old) }
    {
        self.records.insert(name, bytes)?;
        Ok(())
    }

    /// Removes a record.
    pub fn remove(&mut self, name: &RecordName)
        ensures value { contents_of self.new ≡ done (Write.Remove name.now) (contents_of self.old) }
    {
        self.records.remove(name);
    }

    /// Makes or replaces a leaf.
    pub fn put_leaf(&mut self, label: Label, leaf: MemLeaf) -> Result<(), NoMemory>
        ensures ok { OnOk result (contents_of self.new ≡ with_leaf (contents_of self.old) label leaf) }
        ensures err { OnErr result (contents_of self.new ≡ contents_of self.old) }
        ensures there { OnErr result (get (leaves_of self.old) label ≡ None) }
    {
        self.leaves.insert(LeafKey { label }, leaf)?;
        Ok(())
    }

    /// Removes a leaf.
    pub fn remove_leaf(&mut self, label: Label)
        ensures value { contents_of self.new ≡ done (Write.RemoveLeaf label) (contents_of self.old) }
    {
        self.leaves.remove(&LeafKey { label });
    }

    /// The names of the records.
    pub fn names(&self) -> Result<Vec<RecordName>, NoMemory>
        ensures value { IfOk result (λ names. names.items ≡ keys (records_of self.now)) }
    {
        let mut names = Vec::new(self.alloc);
        for name in self.records.keys() {
            names.push(*name)?;
        }
        Ok(names)
    }

    /// The labels of the leaves.
    pub fn labels(&self) -> Result<Vec<Label>, NoMemory>
        ensures value { IfOk result (λ labels. labels.items ≡ keys (leaves_of self.now)) }
    {
        let mut labels = Vec::new(self.alloc);
        for key in self.leaves.keys() {
            labels.push(key.label)?;
        }
        Ok(labels)
    }

    /// Does a change.
    pub fn change(&mut self, write: &Write) -> Result<(), NoMemory>
        ensures ok { OnOk result (contents_of self.new ≡ done write.now (contents_of self.old)) }
        ensures err { OnErr result (contents_of self.new ≡ contents_of self.old) }
    {
        match write {
            Write::Put(name, bytes) => self.put(*name, bytes.copy()?),
            Write::Remove(name) => {
                self.remove(name);
                Ok(())
            }
            Write::RemoveLeaf(label) => {
                self.remove_leaf(*label);
                Ok(())
            }
        }
    }

    /// Makes a leaf that the next step takes away, if there is memory.
    pub fn put_doubtful(&mut self, label: Label, leaf: MemLeaf)
        ensures { (contents_of self.new ≡ contents_of self.old)
            ⊎ (contents_of self.new ≡ doubted (contents_of self.old) label leaf) }
    {
        if self.put_leaf(label, leaf).is_ok() {
            self.doubt = Some(label);
        }
    }

    /// Replaces a leaf that is there.
    pub fn replace_leaf(&mut self, label: Label, leaf: MemLeaf)
        requires { IsSome (get (leaves_of self.old) label) }
        ensures { contents_of self.new ≡ with_leaf (contents_of self.old) label leaf }
    {
        let Ok(()) = self.put_leaf(label, leaf) else {
            unreachable!()
        };
    }
}
