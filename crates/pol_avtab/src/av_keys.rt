ghost use Rattle.std.specs.Prelude.{◌≡◌, ◌↔◌, [], IsTrue, OnOk, OnErr};
ghost use Rattle.pol_avtab.specs.AvKeys.{key_of, has_key, with_key};

use crate::av_key::AvKey;
use crate::av_view::AvView;
use indexmap::IndexSet;
use std::alloc::{AllocError, Global};
use std::marker::Model;

/// The keys of the rules of a table that were read. Contracts see them as a list without a key twice.
#[derive(Drop)]
pub struct AvKeys {
    keys: IndexSet<AvKey>,
}

impl Model for AvKeys {
    ghost use Rattle.std.specs.Prelude.{List};
    ghost use Rattle.pol_avtab.specs.declared.av_key.AvKey.{AvKey};

    ghost Value = { List AvKey };

    ghost view = { λ k. k.keys.keys };
}

impl AvKeys {
    /// No key.
    pub fn new(alloc: Global) -> AvKeys
        ensures { result ≡ [] }
    {
        let keys = IndexSet::new(alloc);
        AvKeys { keys }
    }

    /// Whether there is none.
    pub fn is_empty(&self) -> bool
        ensures { IsTrue result ↔ (self.now ≡ []) }
    {
        self.keys.is_empty()
    }

    /// Whether a rule has the key. It looks at no other key, and at none where there are none.
    pub fn has(&self, key: AvKey) -> bool
        ensures { result ≡ has_key self.now key }
    {
        !self.is_empty() && self.keys.contains(&key)
    }

    /// Adds the key of a rule. Out of memory, the keys are as they were.
    pub fn add(&mut self, view: &AvView<'_>) -> Result<(), AllocError>
        ensures ok { OnOk result (self.new ≡ with_key self.old (key_of view.now.value)) }
        ensures err { OnErr result (self.new ≡ self.old) }
    {
        self.keys.insert_full(view.key())?;
        Ok(())
    }
}
