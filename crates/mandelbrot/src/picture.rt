//! The picture: which point each pixel stands for, and which rows each band has.
ghost use Rattle.std.specs.Prelude.{◌≡◌, ◌+◌, ◌≤◌, ◌<◌, ◌-◌, min};

use crate::fixed_point::{ONE, Point};

/// A band has so many rows, unless it is the last one.
pub const BAND_ROWS: u32 = 4;

/// The part of the plane from -2.25 to 0.75 and from -1 to 1, in so many pixels.
#[derive(Clone, Copy)]
pub struct Picture {
    pub width: u32,
    pub height: u32,
    ghost is_wide: { 0 < width },
    ghost is_high: { 0 < height },
    ghost width_limit: { width ≤ 16384 },
    ghost height_limit: { height ≤ 16384 },
}

/// Some rows of a picture, the first one on top.
#[derive(Clone, Copy)]
pub struct Rows {
    pub first: u32,
    pub count: u32,
    ghost some: { 0 < count },
    ghost few: { count ≤ 4 },
    ghost low: { first ≤ 16384 },
}

// How far pixel k of n stands from the first edge, of an axis that is so long: its middle.
fn middle(k: u32, n: u32, length: i32) -> i32
    requires { 0 < n }
{
    let twice = i64::from(k).saturating_mul(2).saturating_add(1);
    let part = i64::from(length).saturating_mul(twice) / i64::from(n).saturating_mul(2).max(1);
    i32::try_from(part).unwrap_or(length)
}

impl Picture {
    /// The point in the middle of a pixel. Row 0 is on top.
    pub fn point(self, column: u32, row: u32) -> Point {
        Point {
            real: middle(column, self.width, 3 * ONE).saturating_sub(9 * (ONE / 4)),
            imaginary: ONE.saturating_sub(middle(row, self.height, 2 * ONE)),
        }
    }

    /// The rows of the band that begins at this row.
    pub fn band_at(self, first: u32) -> Rows
        requires { first < self.height }
        ensures first { result.first ≡ first }
        ensures count { result.count ≡ min 4 (self.height - first) }
    {
        Rows {
            first,
            count: BAND_ROWS.min(self.height - first),
        }
    }
}
