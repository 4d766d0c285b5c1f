//! The order of those who wait: keys that are linked, so that each enters and leaves it in constant
//! time, whatever stands beside it.
ghost use Rattle.std.specs.Prelude.{◌≡◌, ◌≢◌, ◌==◌, ℕ, ◌+◌, ◌<◌, ◌≤◌, ◌^◌, [], ◌∷◌, ◌++◌, length, slice_get, vec_len, IsOk, OnOk};
ghost use Rattle.async_utilities.specs.Links.{IsIn, without, Inserts, KeepsLinks, Skips, IsLink, next_of, previous_of};

use std::alloc::{AllocError, Global};
use std::marker::Model;

// Stands before the first key and behind the last one.
const END: usize = usize::MAX;

#[derive(Clone, Copy)]
struct Link {
    previous: usize,
    next: usize,
}

// The link of each key that has room, and the first and the last key that is linked.
#[derive(Drop)]
struct Chain {
    links: Vec<Link>,
    first: usize,
    last: usize,
}

impl Chain {
    // Makes room for the links of this key and each below it. The room doubles at least, so that few keys
    // take memory.
    #[inline(always)]
    fn grow(&mut self, key: usize) -> Result<(), AllocError>
        ensures room { OnOk result (key < vec_len self.new.links) }
        ensures succeeds { key < vec_len self.old.links → IsOk result }
        ensures grows { vec_len self.old.links ≤ vec_len self.new.links }
        ensures next { KeepsLinks next_of self.old self.new }
        ensures previous { KeepsLinks previous_of self.old self.new }
    {
        if key < self.links.len() {
            return Ok(());
        }
        if key == END {
            return Err(AllocError);
        }
        let link = Link {
            previous: END,
            next: END,
        };
        let twice = self.links.len().saturating_mul(2);
        self.links.resize(twice.max(key + 1), link)
    }

    #[inline(always)]
    fn set_next(&mut self, at: usize, to: usize)
        requires { IsLink self.old at }
        ensures here { next_of self.new at ≡ to }
        ensures others { (k : ℕ) → k ≢ at → next_of self.new k ≡ next_of self.old k }
        ensures previous { (other : ℕ) → previous_of self.new other ≡ previous_of self.old other }
        ensures len { vec_len self.new.links ≡ vec_len self.old.links }
    {
        if at == END {
            self.first = to;
        } else {
            self.links[at].next = to;
        }
    }

    #[inline(always)]
    fn set_previous(&mut self, at: usize, to: usize)
        requires { IsLink self.old at }
        ensures here { previous_of self.new at ≡ to }
        ensures others { (k : ℕ) → k ≢ at → previous_of self.new k ≡ previous_of self.old k }
        ensures next { (other : ℕ) → next_of self.new other ≡ next_of self.old other }
        ensures len { vec_len self.new.links ≡ vec_len self.old.links }
    {
        if at == END {
            self.last = to;
        } else {
            self.links[at].previous = to;
        }
    }

    // Links the key behind the last one.
    #[inline(always)]
    fn insert(&mut self, key: usize)
        requires key_in { key < vec_len self.old.links }
        requires last_in { IsLink self.old self.old.last }
        requires apart { key ≢ self.old.last }
        ensures inserts { Inserts self.old self.new key }
        ensures len { vec_len self.new.links ≡ vec_len self.old.links }
    {
        let last = self.last;
        self.set_next(key, END);
        self.set_previous(key, last);
        self.set_next(last, key);
        self.set_previous(END, key);
    }

    // Joins the two neighbours of the key.
    #[inline(always)]
    fn skip(&mut self, key: usize)
        requires key_in { key < vec_len self.old.links }
        requires previous_in { IsLink self.old (previous_of self.old key) }
        requires next_in { IsLink self.old (next_of self.old key) }
        ensures skips { Skips self.old self.new key }
        ensures len { vec_len self.new.links ≡ vec_len self.old.links }
    {
        let Link { previous, next } = self.links[key];
        self.set_next(previous, next);
        self.set_previous(next, previous);
    }
}

/// Keys in an order, each at most once.
///
/// A contract sees it as `Order`: the keys, first to last, and the number below which a key has room.
#[derive(Drop)]
pub(crate) struct Links {
    chain: Chain,
    len: usize,
}

impl Model for Links {
    ghost use Rattle.async_utilities.specs.Links.{Order, order_code, order_of, IsLinked};

    ghost Value = { Order };

    ghost coded = { order_code };

    ghost view = { λ s. order_of s.chain s.len };

    ghost invariant = { λ s. IsLinked s.chain s.len };
}

impl Links {
    /// Links of no key, and no room for one.
    pub(crate) fn new(alloc: Global) -> Self
        ensures { result ≡ record { keys = []; limit = 0 } }
    {
        let chain = Chain {
            links: Vec::new(alloc),
            first: END,
            last: END,
        };
        Links { chain, len: 0 }
    }

    /// Makes room for the links of this key and each below it.
    #[inline(always)]
    pub(crate) fn reserve(&mut self, key: usize) -> Result<(), AllocError>
        ensures room { OnOk result (key < self.new.limit) }
        ensures succeeds { key < self.old.limit → IsOk result }
        ensures limit { self.old.limit ≤ self.new.limit }
        ensures keys { self.new.keys ≡ self.old.keys }
    {
        self.chain.grow(key)
    }

    /// Whether no key is linked.
    pub(crate) fn is_empty(&self) -> bool
        ensures { result ≡ (length self.now.keys == 0) }
    {
        self.len == 0
    }

    /// The first key that is linked.
    pub(crate) fn first(&self) -> Option<usize>
        ensures { result ≡ slice_get self.now.keys 0 }
    {
        if self.len == 0 {
            None
        } else {
            Some(self.chain.first)
        }
    }

    /// Links a key behind the last one.
    #[inline(always)]
    pub(crate) fn push(&mut self, key: usize)
        requires room { key < self.old.limit }
        requires absent { ¬ IsIn key self.old.keys }
        ensures { self.new ≡ record self.old { keys = self.old.keys ++ key ∷ [] } }
    {
        self.chain.insert(key);
        self.len += 1;
    }

    /// Takes a key out, wherever it stands.
    #[inline(always)]
    pub(crate) fn remove(&mut self, key: usize)
        requires { IsIn key self.old.keys }
        ensures { self.new ≡ record self.old { keys = without key self.old.keys } }
    {
        self.chain.skip(key);
        self.len -= 1;
    }
}
