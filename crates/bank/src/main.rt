//! Simulates a bank, whose customers come again and again and have money moved between accounts. The clock
//! is moved on to the next deadline once no customer can go on, so hours take no time.
#![tactic(auto)]

mod accounts;

use accounts::{ACCOUNTS, Accounts};
use async_executor::{Future, LocalExecutor, Poll, TaskWaker};
use async_utilities::{Interval, ThreadWaker, Timer};
use std::alloc::Global;
use std::cell::{Cell, RefCell};
use std::io;
use std::rc::Rc;
use std::sync::Wait;
use std::time::{Clock, Duration};

const CUSTOMERS: usize = 20;

const VISITS: usize = 6;

/// Stands still until its time is moved.
#[derive(Drop)]
struct StillClock(Rc<Cell<Duration>>);

impl Clock for StillClock {
    fn monotonic(&self) -> io::Result<Duration> {
        Ok(self.0.get())
    }

    fn since_1970(&self) -> io::Result<Duration> {
        self.monotonic()
    }
}

/// The accounts, and how many transfers between them were refused.
#[derive(Drop)]
struct Ledger {
    accounts: RefCell<Accounts>,
    refused: Cell<u64>,
}

/// Has money moved at each visit.
#[derive(Drop)]
struct Customer<R: Wait + Drop> {
    ledger: Rc<Ledger>,
    visits: Interval<TaskWaker<ThreadWaker, R>, R>,
    number: usize,
    come: usize,
}

impl<R: Wait + Drop> Future<TaskWaker<ThreadWaker, R>> for Customer<R> {
    type Output = ();

    fn poll(&mut self, w: &TaskWaker<ThreadWaker, R>) -> Poll<()> {
        for visit in self.come..VISITS {
            let Poll::Ready(_) = self.visits.poll_next(w) else {
                return Poll::Pending;
            };
            self.come = visit + 1;
            let Ok(mut accounts) = self.ledger.accounts.try_borrow_mut() else {
                continue;
            };
            let to = self.number.wrapping_mul(visit) % ACCOUNTS;
            if !accounts.transfer(self.number % ACCOUNTS, to, 20) {
                let refused = &self.ledger.refused;
                refused.set(refused.get().saturating_add(1));
            }
        }
        Poll::Ready(())
    }
}

/// The ledger, the executor that the customers run on, and the timer that they wait for.
#[derive(Drop)]
struct Bank<R: Wait + Drop> {
    ledger: Rc<Ledger>,
    time: Rc<Cell<Duration>>,
    timer: Timer<TaskWaker<ThreadWaker, R>, StillClock, R>,
    executor: LocalExecutor<Customer<R>, ThreadWaker, R>,
}

impl<R: Wait + Clone + Drop> Bank<R> {
    fn open(rt: &R, alloc: Global) -> io::Result<Bank<R>> {
        let ledger = Ledger {
            accounts: RefCell::new(Accounts::open(100)),
            refused: Cell::new(0),
        };
        let time = Rc::new(alloc, Cell::new(Duration::ZERO))?;
        Ok(Bank {
            ledger: Rc::new(alloc, ledger)?,
            timer: Timer::new(rt.clone()?, StillClock(time.clone()?), alloc)?,
            executor: LocalExecutor::new(rt.clone()?, alloc)?,
            time,
        })
    }

    /// Spawns a task for each customer.
    fn spawn_customers(&self) -> io::Result<()> {
        for number in 0..CUSTOMERS {
            let period = Duration::from_secs(60 * (number as u64 + 1));
            let customer = Customer {
                ledger: self.ledger.clone()?,
                visits: self.timer.interval(period)?,
                number,
                come: 0,
            };
            self.executor.spawn(customer)?.detach();
        }
        Ok(())
    }

    /// Runs the customers' tasks, and moves the time on whenever none can go on, until none waits any more.
    fn run(&self, rt: &R) -> io::Result<()> {
        let driver = self.timer.driver()?;
        for _ in rt.forever() {
            if self.executor.try_tick() {
                continue;
            }
            let firing = driver.fire()?;
            match firing.left {
                _ if firing.has_woken => {}
                Some(left) => self.time.set(self.time.get().saturating_add(left)),
                None => break,
            }
        }
        Ok(())
    }
}

/// Simulates all visits. Gives how many minutes they took, how many transfers were refused, and how much
/// money is in all accounts.
fn simulate<R: Wait + Clone + Drop>(rt: &R, alloc: Global) -> io::Result<(u64, u64, u64)> {
    let bank = Bank::open(rt, alloc)?;
    bank.spawn_customers()?;
    bank.run(rt)?;
    let minutes = bank.time.get().as_secs() / 60;
    let total = bank.ledger.accounts.try_borrow()?.total();
    Ok((minutes, bank.ledger.refused.get(), total))
}

fn main(rt: HostRuntime) -> io::Result<()> {
    let (minutes, refused, total) = simulate(&rt, rt.alloc())?;
    println!(rt; "{minutes} minutes, {refused} transfers refused, {total} in all accounts")
}
