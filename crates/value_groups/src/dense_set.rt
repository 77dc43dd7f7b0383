// Values with a bit for each.
ghost use Rattle.std.specs.Prelude.{◌≡◌, ◌<◌, ◌≤◌, ◌+◌, ◌*◌, ◌||◌, ◌==◌, ℕ, [], IfOk, length, replicate};
ghost use Rattle.std.specs.List.{All};
ghost use Rattle.pol_bitmap.specs.Nodes.{bits_of, has_bit};
ghost use Rattle.pol_bitmap.specs.Sets.{IsSet};
ghost use Rattle.value_groups.specs.Among.{is_among};
ghost use Rattle.value_groups.specs.Inner.Dense.{word_has};

use pol_bitmap::{Node, Set};
use std::alloc::{AllocError, Global};
use std::marker::Model;

/// Values below a count, a bit for each, in which many sets are joined word by word. Contracts see the values, rising.
#[derive(Drop)]
pub struct DenseSet {
    count: usize,
    words: Vec<u64>,
}

impl Model for DenseSet {
    ghost use Rattle.value_groups.specs.Inner.Marking.{MarkedValues};
    ghost use Rattle.value_groups.specs.Inner.Dense.{IsDense, values_in};

    ghost Value = { MarkedValues };

    ghost view = { λ d. record { count = d.count; values = values_in d.count d.words.items } };

    ghost invariant = { λ d. IsDense d.count d.words.items };
}

impl DenseSet {
    /// None yet, of the values below a count.
    pub fn new(alloc: Global, count: usize) -> Result<DenseSet, AllocError>
        requires { count ≤ 65536 }
        ensures { IfOk result (λ d. d ≡ record { count = count; values = [] }) }
    {
        let words = no_words(alloc, count.div_ceil(64))?;
        Ok(DenseSet { count, words })
    }

    /// Adds a value.
    pub fn add(&mut self, value: u32)
        requires { value < self.old.count }
        ensures count { self.new.count ≡ self.old.count }
        ensures each { (other : ℕ) → is_among self.new.values other ≡ (is_among self.old.values other || (value == other)) }
    {
        let place = value as usize;
        self.words[place / 64] |= 1 << (place % 64);
    }

    /// Adds the bits of a set, a node at a time.
    pub fn add_set(&mut self, set: &Set)
        requires { All (λ value. value < self.old.count) (bits_of set.now) }
        ensures count { self.new.count ≡ self.old.count }
        ensures each { (value : ℕ) → is_among self.new.values value ≡ (is_among self.old.values value || is_among (bits_of set.now) value) }
    {
        add_nodes(&mut self.words, set.nodes());
    }

    /// Whether a value is there.
    pub fn has(&self, value: u32) -> bool
        ensures { result ≡ is_among self.now.values value }
    {
        let place = value as usize;
        place < self.count && (self.words[place / 64] >> (place % 64)) % 2 == 1
    }

    /// The values as a set, a node for each word that has some.
    pub fn to_set(&self, alloc: Global) -> Result<Set, AllocError>
        ensures form { IfOk result IsSet }
        ensures bits { IfOk result (λ set. bits_of set ≡ self.now.values) }
    {
        let nodes = nodes_of(alloc, &self.words)?;
        Set::from_nodes(alloc, nodes)
    }
}

// As many words, with no bit set.
fn no_words(alloc: Global, count: usize) -> Result<Vec<u64>, AllocError>
    ensures { IfOk result (λ words. words.items ≡ replicate count 0) }
{
    vec![in alloc; 0; count]
}

// Adds the maps of nodes to the words that they stand for.
fn add_nodes(words: &mut Vec<u64>, nodes: &[Node])
    requires set { IsSet nodes.now }
    requires within { All (λ value. value < 64 * length words.old.items) (bits_of nodes.now) }
    ensures long { length words.new.items ≡ length words.old.items }
    ensures each { (value : ℕ) → word_has words.new.items value ≡ (word_has words.old.items value || has_bit nodes.now value) }
{
    for node in nodes {
        words[node.start as usize / 64] |= node.map;
    }
}

// A node for each word that is not 0.
fn nodes_of(alloc: Global, words: &[u64]) -> Result<Vec<Node>, AllocError>
    requires { length words.now ≤ 1024 }
    ensures set { IfOk result (λ nodes. IsSet nodes.items) }
    ensures each { IfOk result (λ nodes. (value : ℕ) → has_bit nodes.items value ≡ word_has words.now value) }
{
    let mut nodes = Vec::new(alloc);
    for place in 0..words.len() {
        let map = words[place];
        if map != 0 {
            let start = place as u32 * 64;
            nodes.push(Node { start, map })?;
        }
    }
    Ok(nodes)
}
