//! Those who wait for permits.
ghost use Rattle.std.specs.Prelude.{◌<◌};

/// One that waits for so many permits.
#[derive(Drop)]
pub(crate) struct Wish<W> {
    pub(crate) waker: W,
    pub(crate) permits: usize,
    ghost some: { 0 < permits },
}
