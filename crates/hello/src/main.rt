//! One task, which the thread of `main` awaits, and which it runs meanwhile.
#![tactic(auto)]

use async_executor::Executor;
use async_utilities::{Ready, run_until};
use std::alloc::Global;
use std::io;
use std::sync::Wait;

/// Spawns a task and awaits it. This thread polls its handle, and runs tasks between the polls.
fn add<R: Wait + Clone + Drop + Send + Sync>(rt: &R, alloc: Global) -> io::Result<u64> {
    let executor = Executor::new(rt.clone()?, alloc)?;
    let task = executor.spawn(Ready::new(1 + 2))?;
    Ok(run_until(rt, alloc, &executor, task)??)
}

fn main(rt: HostRuntime) -> io::Result<()> {
    let sum = add(&rt, rt.alloc())?;
    println!(rt; "1 + 2 is {sum}")
}
