//! Draws a picture on threads, and prints it from top to bottom.
ghost use Rattle.std.specs.Prelude.{◌≤◌};

use crate::band::{Band, Pixels};
use crate::failure::Failure;
use crate::picture::Picture;
use async_executor::{Cancelled, Executor, Task};
use async_utilities::{JoinAll, Pool, ThreadWaker, run_until};
use std::alloc::Global;
use std::sync::Wait;
use std::thread::Threads;

/// So many bands are drawn at once: memory holds the bytes of no more.
pub const BANDS_AT_ONCE: u32 = 64;

type Handle<R> = Task<Band, ThreadWaker, R>;

// Spawns a task for each band of the next window, and gives their handles and the row after them.
fn spawn_window<R: Wait + Drop + Send + Sync>(
    alloc: Global,
    executor: &Executor<Band, ThreadWaker, R>,
    picture: Picture,
    first: u32,
) -> Result<(Vec<Handle<R>>, u32), Failure>
    requires { first ≤ 16384 }
{
    let mut tasks = Vec::new(alloc);
    let mut row = first;
    for _ in 0..BANDS_AT_ONCE {
        if row >= picture.height {
            break;
        }
        let rows = picture.band_at(row);
        let band = Band::new(alloc, picture, rows)?;
        tasks.push(executor.spawn(band)?)?;
        row = row.saturating_add(rows.count);
    }
    Ok((tasks, row))
}

// Runs tasks on this thread too, until the tasks of a window of bands have ended.
fn await_window<R: Wait + Drop + Send + Sync>(
    rt: &R,
    alloc: Global,
    executor: &Executor<Band, ThreadWaker, R>,
    tasks: Vec<Handle<R>>,
) -> Result<Vec<Pixels>, Failure> {
    let all = JoinAll::new(alloc, tasks)?;
    let outputs = run_until(rt, alloc, executor, all)?;
    drawn(alloc, outputs)
}

// The bands, if none was given up.
fn drawn(alloc: Global, outputs: Vec<Result<Pixels, Cancelled>>) -> Result<Vec<Pixels>, Failure> {
    let mut bands = Vec::with_capacity(alloc, outputs.len())?;
    for output in outputs {
        let Ok(band) = output else {
            return Err(Failure::Stopped);
        };
        bands.push(band)?;
    }
    Ok(bands)
}

// Prints the bands, in their order.
fn print(rt: &impl Print, bands: &[Pixels]) -> Result<(), Failure> {
    for band in bands {
        if rt.write_all(band.bytes.as_slice()).is_err() {
            return Err(Failure::Output);
        }
    }
    Ok(())
}

// Says on standard error how many rows are printed. A failed write is ignored.
fn tell(rt: &impl Eprint, done: u32, picture: Picture) {
    let height = picture.height;
    let _ = eprintln!(rt; "{done} of {height} rows");
}

// Prints the head of the picture, and draws and prints a window after another.
fn draw_all<R: Wait + Drop + Send + Sync + Print + Eprint>(
    rt: &R,
    alloc: Global,
    executor: &Executor<Band, ThreadWaker, R>,
    picture: Picture,
    progress: bool,
) -> Result<(), Failure> {
    let (width, height) = (picture.width, picture.height);
    if print!(rt; "P6\n{width} {height}\n255\n").is_err() {
        return Err(Failure::Output);
    }
    let mut done = 0;
    for _ in 0..height {
        if done >= height {
            break;
        }
        let (tasks, next) = spawn_window(alloc, executor, picture, done)?;
        let bands = await_window(rt, alloc, executor, tasks)?;
        print(rt, bands.as_slice())?;
        done = next;
        if progress {
            tell(rt, done, picture);
        }
    }
    Ok(())
}

/// Prints the picture as a binary PPM. This thread draws too, beside a pool of the others.
///
/// # Errors
///
/// `Failure`. What was printed before stays.
pub fn draw<R>(
    rt: &R,
    alloc: Global,
    picture: Picture,
    threads: u32,
    progress: bool,
) -> Result<(), Failure>
where
    R: Wait + Threads + Clone + Drop + Send + Sync + Print + Eprint + 'static,
{
    let others = threads.saturating_sub(1) as usize;
    let pool = Pool::new(rt.clone()?, alloc, others)?;
    draw_all(rt, alloc, pool.executor(), picture, progress)?;
    for ended in pool.join() {
        ended?;
    }
    Ok(())
}
