//! Those who drive a timer, each of whom parks until the first deadline.
use crate::blocking::ThreadWaker;
use crate::timers::deadlines::News;
use async_executor::{OutOfMemory, Wake};
use slab::Slab;
use std::alloc::Global;
use std::sync::{Mutex, Wait};

/// A waker of each one who drives the timer.
#[derive(Drop)]
pub(crate) struct Drivers {
    wakers: Mutex<Slab<ThreadWaker>>,
}

impl Drivers {
    /// The drivers of a new timer: none.
    pub(crate) fn new(alloc: Global) -> Drivers {
        Drivers {
            wakers: Mutex::new(Slab::new(alloc)),
        }
    }

    /// One more of the drivers, until it parts. Gives its place among them.
    pub(crate) fn join<R: Wait>(&self, rt: &R, waker: ThreadWaker) -> Result<usize, OutOfMemory> {
        match self.wakers.lock(rt).insert(waker) {
            Ok(place) => Ok(place),
            Err(_) => Err(OutOfMemory),
        }
    }

    /// Gives a place among the drivers back.
    pub(crate) fn part<R: Wait>(&self, rt: &R, place: usize) {
        let waker = self.wakers.lock(rt).try_remove(place);
        drop(waker);
    }

    /// Tells each one of a deadline that comes before all that were there, so that it parks anew.
    pub(crate) fn tell<R: Wait>(&self, rt: &R, news: News) {
        match news {
            // All of them: whoever is told alone could end, and would have to pass it on.
            News::Nearer => {
                for (_, waker) in self.wakers.lock(rt).iter() {
                    waker.wake();
                }
            }
            News::NoNearer => {}
        }
    }
}
