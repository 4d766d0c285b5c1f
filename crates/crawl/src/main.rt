//! Crawls a web of a thousand pages, sixteen at once. A page that does not answer in time is late.
#![tactic(auto)]

ghost use Rattle.std.specs.Prelude.{◌≡◌, ◌+◌, if◌then◌else◌, is_some, nat_eq, slice_get};
ghost use Rattle.indexmap.specs.IndexSet.{IsUnique};

use async_executor::{Executor, Future, Poll, TaskWaker};
use async_utilities::{After, AnyOf, Pool, ThreadWaker, Timer};
use indexmap::IndexSet;
use std::alloc::Global;
use std::io;
use std::sync::Wait;
use std::time::{Clock, Duration};

const AT_ONCE: usize = 16;

/// A visit of a page. It gives the links of the page, or none if the page is late: some never answer.
#[derive(Drop)]
struct Visit<R: Wait + Drop> {
    page: u32,
    deadline: After<TaskWaker<ThreadWaker, R>, R>,
}

impl<R: Wait + Drop> Future<TaskWaker<ThreadWaker, R>> for Visit<R> {
    type Output = Option<[u32; 2]>;

    fn poll(&mut self, w: &TaskWaker<ThreadWaker, R>) -> Poll<Option<[u32; 2]>> {
        if self.page % 50 != 49 {
            let next = self.page.wrapping_mul(3).wrapping_add(1) % 1_000;
            return Poll::Ready(Some([next, self.page / 7]));
        }
        match self.deadline.poll(w) {
            Poll::Ready(_) => Poll::Ready(None),
            Poll::Pending => Poll::Pending,
        }
    }
}

/// The first page of which no visit was begun, which is begun then.
fn next_page(found: &IndexSet<u32>, begun: &mut usize) -> Option<u32>
    ensures page { result ≡ slice_get found.now.keys begun.old }
    ensures once { IsUnique nat_eq found.now }
    ensures begun { begun.new ≡ begun.old + (if is_some result then 1 else 0) }
{
    let at = *begun;
    if at < found.len() {
        *begun = at + 1;
    }
    found.get_index(at).copied()
}

/// Crawls from page 0, and adds the pages that it finds. Gives how many of them were late.
fn crawl_web<R: Wait + Clock + Clone + Drop + Send + Sync>(
    rt: &R,
    alloc: Global,
    timer: &Timer<TaskWaker<ThreadWaker, R>, R, R>,
    executor: &Executor<Visit<R>, ThreadWaker, R>,
    found: &mut IndexSet<u32>,
) -> io::Result<u64> {
    found.insert(0)?;
    let mut visits = Vec::new(alloc);
    let (mut begun, mut late) = (0, 0u64);
    for _ in rt.forever() {
        if visits.len() < AT_ONCE
            && let Some(page) = next_page(found, &mut begun)
        {
            let deadline = timer.after(Duration::from_millis(10))?;
            visits.push(executor.spawn(Visit { page, deadline })?)?;
            continue;
        }
        if visits.is_empty() {
            break;
        }
        let first = timer.block_on(AnyOf::new(visits))?;
        visits = first.others;
        match first.output? {
            Some(links) => found.extend(links)?,
            None => late = late.saturating_add(1),
        }
    }
    Ok(late)
}

fn main(rt: HostRuntime) -> io::Result<()> {
    let timer = Timer::new(rt.clone()?, rt.clone()?, rt.alloc())?;
    let pool = Pool::new(rt.clone()?, rt.alloc(), 2)?;
    let mut found = IndexSet::new(rt.alloc());
    let late = crawl_web(&rt, rt.alloc(), &timer, pool.executor(), &mut found)?;
    println!(rt; "{} pages visited, {late} of them late", found.len())
}
