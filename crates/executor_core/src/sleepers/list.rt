//! The list of sleepers, and their numbers.
ghost use Rattle.std.specs.Prelude.{◌≡◌, ◌+◌, ◌==◌, ◌<◌, ◌≤◌, length, OnOk, OnErr, MatchOption, unwrap_or, position, slice_get, false};
ghost use Rattle.std.specs.FinSet as set;
ghost use Rattle.std.specs.Map.{keys_of, lookup, remove_entry, set_value};
ghost use Rattle.std.specs.Vec.{vec_capacity};
ghost use Rattle.executor_core.specs.Sleepers.{SleeperLaw, is_notified, notified_number};
ghost use Rattle.executor_core.specs.Sleepers.Calls.{last_of, all_but_last, no_sleepers, closed, change_of, after_reserve, after_release, after_insert, insert_answer, after_update, update_answer, after_remove, remove_answer, after_notify, notify_answer};

use crate::task::error::OutOfMemory;
use crate::task::values::{Again, Change, Notice, Pick, Wakeup};
use core::mem::replace;
use std::alloc::Global;
use std::marker::Model;

/// What an update of a sleeper found.
pub enum Update<W> {
    /// It sleeps unnotified, and this is the waker that it had.
    Asleep(W),
    /// It was notified, and sleeps again: the flag is to be stored, and then a search to be made.
    WasNotified(Change<Again>),
    /// No sleeper has the number. The waker comes back, and nothing changed.
    Unknown(W),
}

/// What a sleeper that was removed leaves.
pub struct Removed<W> {
    /// The news that it was notified of, if it was.
    pub notice: Option<Notice>,
    /// Its waker, if it was not notified.
    pub waker: Option<W>,
}

/// The sleepers: their numbers, and the list of those that were not notified, with their wakers.
///
/// A contract sees it as a `SleeperList`. Its law, which every call keeps: the numbers of the list
/// are distinct and in use, at most one number in use does not stand there, and the numbers in use
/// and the free ones are 1 to their total, each once. It stands for the struct of this name in the
/// Rust crate.
#[derive(Drop)]
pub struct Sleepers<W> {
    unnotified: Vec<(usize, W)>,
    // A field and no mark in the list: `insert` and `notify` cost the same however many sleep.
    notified: Option<usize>,
    free: Vec<usize>,
    places: usize,
    is_open: bool,
}

impl<W> Model for Sleepers<W> {
    ghost use Rattle.std.specs.Vec.{vec_capacity};
    ghost use Rattle.executor_core.specs.Sleepers.{SleeperList, sleeper_list_code};

    ghost Value = { SleeperList W };

    ghost coded = { sleeper_list_code W.code };

    ghost use Rattle.executor_core.specs.Sleepers.View.{list_of, IsSoundList};

    ghost view = { λ a. list_of a.notified a.unnotified.items a.free.items a.places a.is_open };

    ghost invariant = { λ a. IsSoundList a.notified a.unnotified.items a.free.items a.places
        (vec_capacity a.unnotified) (vec_capacity a.free) };
}

// Room for this many items in all, sleepers or free numbers. If there is room, nothing is refused.
fn reserve_places<T>(items: &mut Vec<T>, places: usize) -> Result<(), OutOfMemory>
    ensures items { items.new.items ≡ items.old.items }
    ensures capacity { vec_capacity items.old ≤ vec_capacity items.new }
    ensures room { OnOk result (places ≤ vec_capacity items.new) }
    ensures refused { OnErr result (vec_capacity items.old < places) }
    ensures unchanged { OnErr result (vec_capacity items.new ≡ vec_capacity items.old) }
{
    items.reserve(places.saturating_sub(items.len()))?;
    Ok(())
}

// A sleeper's number: the one that was given back last leaves, else it is one more than are in use.
fn take_number(free: &mut Vec<usize>, used: usize) -> usize
    requires { used < usize.MAX }
    ensures number { result ≡ unwrap_or (last_of free.old.items) (used + 1) }
    ensures free { free.new.items ≡ all_but_last free.old.items }
    ensures capacity { vec_capacity free.new ≡ vec_capacity free.old }
{
    free.pop().unwrap_or(used + 1)
}

// The place of the sleeper of this number in the list.
fn place_of<W>(pairs: &[(usize, W)], id: usize) -> Option<usize>
    ensures { result ≡ position (λ p. p.0 == id) pairs.now }
{
    pairs.iter().position(|pair| pair.0 == id)
}

// Puts the waker in the place of the sleeper's, which comes out; it comes back if there is none.
fn replace_waker<W>(pairs: &mut Vec<(usize, W)>, id: usize, waker: W) -> Update<W>
    ensures items { pairs.new.items ≡ set_value (λ k. k == id) pairs.old.items waker }
    ensures answer { MatchOption (lookup (λ k. k == id) pairs.old.items)
        (result ≡ Update.Unknown waker) (λ old. result ≡ Update.Asleep old) }
    ensures capacity { vec_capacity pairs.new ≡ vec_capacity pairs.old }
{
    match place_of(pairs, id) {
        Some(at) => Update::Asleep(replace(&mut pairs[at].1, waker)),
        None => Update::Unknown(waker),
    }
}

// Takes the sleeper of this number out of the list, and gives its waker.
#[cold]
#[inline(never)]
fn remove_waker<W>(pairs: &mut Vec<(usize, W)>, id: usize) -> Option<W>
    ensures items { pairs.new.items ≡ remove_entry (λ k. k == id) pairs.old.items }
    ensures answer { result ≡ lookup (λ k. k == id) pairs.old.items }
    ensures capacity { vec_capacity pairs.new ≡ vec_capacity pairs.old }
{
    let at = place_of(pairs, id)?;
    let (_, waker) = pairs.remove(at);
    Some(waker)
}

impl<W> Sleepers<W> {
    /// A list in which nobody sleeps, and no place is reserved. It takes no memory.
    pub fn new(alloc: Global) -> Self
        ensures list { result ≡ no_sleepers }
        ensures law { SleeperLaw result }
    {
        Sleepers {
            unnotified: Vec::new(alloc),
            notified: None,
            free: Vec::new(alloc),
            places: 0,
            is_open: false,
        }
    }

    /// Reserves a place in the list for one more sleeper.
    ///
    /// # Errors
    ///
    /// `OutOfMemory` if a growth was refused. Nothing else changed.
    pub fn reserve(&mut self) -> Result<(), OutOfMemory>
        ensures ok { OnOk result (self.new ≡ after_reserve self.old) }
        ensures refused { OnErr result (self.new ≡ self.old) }
        ensures law { SleeperLaw self.new }
    {
        let places = self.places + 1;
        reserve_places(&mut self.unnotified, places)?;
        reserve_places(&mut self.free, places)?;
        self.places = places;
        Ok(())
    }

    /// Gives one place in the list back if one is free, and else changes nothing. It gives no memory back.
    pub fn release(&mut self)
        ensures list { self.new ≡ after_release self.old }
        ensures law { SleeperLaw self.new }
    {
        if self.numbers() < self.places {
            self.places -= 1;
        }
    }

    /// Puts a sleeper with this waker at the list's end, and gives it a number: the one that was
    /// given back last, else one more than are in use. It takes no memory.
    ///
    /// The list has to be closed, and is open afterwards.
    ///
    /// # Errors
    ///
    /// The waker comes back exactly if no reserved place is free. Nothing changed.
    pub fn insert(&mut self, waker: W) -> Result<(usize, Change<Again>), W>
        requires { self.old.is_open ≡ false }
        ensures list { self.new ≡ after_insert self.old waker }
        ensures answer { result ≡ insert_answer self.old waker }
        ensures law { SleeperLaw self.new }
    {
        let used = self.numbers();
        if used >= self.places {
            return Err(waker);
        }
        let id = take_number(&mut self.free, used);
        self.unnotified.push_reserved((id, waker));
        self.is_open = true;
        Ok((id, self.change(Again { unspent: () })))
    }

    /// Gives the sleeper of this number another waker.
    ///
    /// One that is in the list keeps its place there. One that was notified goes to the list's end,
    /// and opens it. A number that is not in use changes nothing. The list has to be closed. It
    /// takes no memory.
    pub fn update(&mut self, id: usize, waker: W) -> Update<W>
        requires { self.old.is_open ≡ false }
        ensures list { self.new ≡ after_update self.old id waker }
        ensures answer { result ≡ update_answer self.old id waker }
        ensures law { SleeperLaw self.new }
    {
        if self.notified == Some(id) {
            self.notified = None;
            self.unnotified.push_reserved((id, waker));
            self.is_open = true;
            return Update::WasNotified(self.change(Again { unspent: () }));
        }
        replace_waker(&mut self.unnotified, id, waker)
    }

    /// Takes the sleeper of this number out, and the number is free again.
    ///
    /// It leaves its waker, or the notice if it was notified, or neither if the number is not in
    /// use: then nothing changed. The list has to be closed, and is open afterwards in each case.
    /// It takes no memory.
    pub fn remove(&mut self, id: usize) -> Change<Removed<W>>
        requires { self.old.is_open ≡ false }
        ensures list { self.new ≡ after_remove self.old id }
        ensures answer { result ≡ remove_answer self.old id }
        ensures law { SleeperLaw self.new }
    {
        self.is_open = true;
        if self.notified == Some(id) {
            self.notified = None;
            self.free.push_reserved(id);
            let notice = Some(Notice { unspent: () });
            return self.change(Removed {
                notice,
                waker: None,
            });
        }
        let Some(waker) = remove_waker(&mut self.unnotified, id) else {
            return self.change(Removed {
                notice: None,
                waker: None,
            });
        };
        self.free.push_reserved(id);
        self.change(Removed {
            notice: None,
            waker: Some(waker),
        })
    }

    /// Takes the waker of the one who went to sleep last, to be woken; that number is notified from
    /// now on. There is none if nobody sleeps, or if somebody is notified already: then nothing
    /// changed. The list has to be closed, and stays so. It takes no memory.
    pub fn notify(&mut self, pick: Pick) -> Option<Wakeup<W>>
        requires { self.old.is_open ≡ false }
        ensures list { self.new ≡ after_notify self.old }
        ensures answer { result ≡ notify_answer self.old }
        ensures law { SleeperLaw self.new }
    {
        let Pick { unspent: () } = pick;
        if self.notified.is_some() {
            return None;
        }
        let (id, waker) = self.unnotified.pop()?;
        self.notified = Some(id);
        Some(Wakeup { waker })
    }

    /// What the flag is to say of the list: whether nobody sleeps, or somebody was notified and has not
    /// answered.
    pub fn is_notified(&self) -> bool
        ensures answer { result ≡ is_notified self.now }
        ensures law { SleeperLaw self.now }
    {
        self.notified.is_some() || self.unnotified.is_empty()
    }

    /// How many sleepers' numbers are in use.
    pub fn numbers(&self) -> usize
        ensures { result ≡ set.len self.now.used }
    {
        match self.notified {
            Some(_) => self.unnotified.len() + 1,
            None => self.unnotified.len(),
        }
    }

    /// The sleeper's number that is notified, or 0 if none is.
    pub fn notified(&self) -> usize
        ensures { result ≡ notified_number self.now }
    {
        self.notified.unwrap_or(0)
    }

    /// How many sleepers stand in the list.
    pub fn len(&self) -> usize
        ensures answer { result ≡ length self.now.unnotified }
        ensures law { SleeperLaw self.now }
    {
        self.unnotified.len()
    }

    /// The number at this place of the list, the one that sleeps longest being at 0.
    pub fn at(&self, i: usize) -> Option<usize>
        ensures { result ≡ slice_get (keys_of self.now.unnotified) i }
    {
        match self.unnotified.get(i) {
            Some(pair) => Some(pair.0),
            None => None,
        }
    }

    // The law of the sleepers' numbers, which every call keeps. It does nothing.
    pub(crate) fn law_holds(&self)
        ensures { SleeperLaw self.now }
    {
        self.is_notified();
    }

    // What the change of the list is about, with what the flag is to say of the list as it is now.
    fn change<X>(&self, carried: X) -> Change<X>
        ensures change { result ≡ change_of self.now carried }
        ensures law { SleeperLaw self.now }
    {
        Change {
            notified: self.is_notified(),
            carried,
        }
    }

    // Closes the list of sleepers: the flag was stored.
    pub(crate) fn close(&mut self)
        ensures list { self.new ≡ closed self.old }
        ensures law { SleeperLaw self.new }
    {
        self.is_open = false;
    }
}
