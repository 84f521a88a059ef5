//! Where hashes stand in a list.
ghost use Rattle.std.specs.Prelude.{◌≡◌, ◌<◌, ◌≤◌, [], ◌∷◌, ◌++◌, length, slice_index, IfOk, OnOk, OnErr};
ghost use Rattle.hp_control.specs.Places.{IsLastOf, chain_of};

use hp_elements::NoMemory;
use std::alloc::Global;
use std::marker::Model;

/// How many chains there are at first.
const FIRST: usize = 256;

/// Hashes, in the order in which they came. Those that end in the same bits are a chain, which is followed from its last
/// hash back to its first. A place is counted from 1 here, and 0 is none.
#[derive(Drop)]
pub(crate) struct Places {
    hashes: Vec<u64>,
    /// For each hash the place of the last one before it in its chain.
    before: Vec<usize>,
    /// For each chain the place of its last hash.
    last: Vec<usize>,
}

impl Model for Places {
    ghost use Rattle.std.specs.Prelude.{length};
    ghost use Rattle.hp_control.specs.Places.{AreChained, Chained};

    ghost Value = { Chained };

    ghost view = { λ p. record { chains = length p.last.items; hashes = p.hashes.items } };

    ghost invariant = { λ p. AreChained p.hashes.items p.before.items p.last.items };
}

/// The chain of a hash among so many: its last bits say it.
#[inline]
fn chain_of(chains: usize, hash: u64) -> usize
    requires { 0 < chains }
    ensures value { result ≡ chain_of chains hash }
    ensures within { result < chains }
{
    hash as usize & (chains - 1)
}

impl Places {
    /// No hash.
    pub(crate) fn new(alloc: Global) -> Result<Places, NoMemory>
        ensures { IfOk result (λ places. places.hashes ≡ []) }
    {
        Places::with_chains(alloc, FIRST)
    }

    /// No hash, with so many chains.
    fn with_chains(alloc: Global, chains: usize) -> Result<Places, NoMemory>
        requires { 0 < chains }
        ensures { IfOk result (λ places. places.hashes ≡ []) }
    {
        let hashes = Vec::with_capacity(alloc, chains)?;
        let before = Vec::with_capacity(alloc, chains)?;
        let last = vec![in alloc; 0; chains]?;
        Ok(Places {
            hashes,
            before,
            last,
        })
    }

    /// The same hashes, with four times as many chains.
    fn grown(&self, alloc: Global) -> Result<Places, NoMemory>
        ensures { IfOk result (λ places. places.hashes ≡ self.now.hashes) }
    {
        let mut places = Places::with_chains(alloc, self.last.len().saturating_mul(4))?;
        for hash in &self.hashes {
            places.put(*hash)?;
        }
        Ok(places)
    }

    /// Makes four times as many chains. The hashes stay.
    #[inline(never)]
    fn grow(&mut self, alloc: Global) -> Result<(), NoMemory>
        ensures { self.new.hashes ≡ self.old.hashes }
    {
        let grown = self.grown(alloc)?;
        *self = grown;
        Ok(())
    }

    /// Appends a hash. At an `Err` the hashes are as before.
    #[inline(always)]
    fn put(&mut self, hash: u64) -> Result<(), NoMemory>
        ensures ok { OnOk result (self.new.hashes ≡ self.old.hashes ++ hash ∷ []) }
        ensures err { OnErr result (self.new.hashes ≡ self.old.hashes) }
    {
        self.hashes.reserve(1)?;
        self.before.reserve(1)?;
        let chain = chain_of(self.last.len(), hash);
        self.before.push_reserved(self.last[chain]);
        self.hashes.push_reserved(hash);
        self.last[chain] = self.hashes.len();
        Ok(())
    }

    /// The same, with more chains where there are as many hashes as chains.
    #[inline(always)]
    pub(crate) fn push(&mut self, alloc: Global, hash: u64) -> Result<(), NoMemory>
        ensures ok { OnOk result (self.new.hashes ≡ self.old.hashes ++ hash ∷ []) }
        ensures err { OnErr result (self.new.hashes ≡ self.old.hashes) }
    {
        if self.hashes.len() == self.last.len() {
            self.grow(alloc)?;
        }
        self.put(hash)
    }

    /// The hash at an index.
    #[inline]
    pub(crate) fn at(&self, index: usize) -> u64
        requires { index < length self.now.hashes }
        ensures { result ≡ slice_index self.now.hashes index }
    {
        self.hashes[index]
    }

    /// The place of the last hash in the chain of that one.
    #[inline]
    pub(crate) fn last(&self, hash: u64) -> usize
        ensures { IsLastOf self.now (chain_of self.now.chains hash) (length self.now.hashes) result }
    {
        self.last[chain_of(self.last.len(), hash)]
    }

    /// The place of the last hash before the one at an index in its chain.
    #[inline]
    pub(crate) fn before(&self, index: usize) -> usize
        requires { index < length self.now.hashes }
        ensures { IsLastOf self.now (chain_of self.now.chains (slice_index self.now.hashes index)) index result }
    {
        self.before[index]
    }
}
