//! Points of the complex plane in fixed point, and how long each stays near 0.
//!
//! A coordinate is an `i32` with 28 bits of fraction, so it is at least -8 and below 8. A product is an
//! `i64` with 56. There are no floats, so each machine gets the same counts.
ghost use Rattle.std.specs.Prelude.{◌≤◌, ◌^◌};
ghost use Rattle.std.specs.Int.RustNames.{unsigned_abs};

/// So many of the bits of a coordinate are its fraction.
pub const FRACTION_BITS: u32 = 28;

/// The coordinate 1.
pub const ONE: i32 = 1 << 28;

/// A point gets at most so many iterations.
pub const LIMIT: u32 = 1000;

// 4 as a product: the square of the distance from 0 at which a point has escaped.
const FOUR: i64 = 1 << 58;

/// A point of the plane.
#[derive(Clone, Copy)]
pub struct Point {
    pub real: i32,
    pub imaginary: i32,
}

// The product, with twice as many bits of fraction. A product of two coordinates always fits.
#[tactic(none)]
fn product(first: i32, second: i32) -> i64
    ensures { unsigned_abs result ≤ 2 ^ 62 }
{
    i64::from(first) * i64::from(second)
}

// The sum of two numbers with 28 bits of fraction, if it is a coordinate.
fn sum(number: i64, other: i32) -> Option<i32> {
    i32::try_from(number).ok()?.checked_add(other)
}

// The square of z, plus c. None if z is farther than 2 from 0, or a coordinate of the sum is 8 or more
// from 0: either way z has escaped.
fn next(z: Point, c: Point) -> Option<Point> {
    let real_square = product(z.real, z.real);
    let imaginary_square = product(z.imaginary, z.imaginary);
    if real_square > FOUR || imaginary_square > FOUR - real_square {
        return None;
    }
    let real = (real_square - imaginary_square) >> FRACTION_BITS;
    let imaginary = product(z.real, z.imaginary) >> (FRACTION_BITS - 1);
    Some(Point {
        real: sum(real, c.real)?,
        imaginary: sum(imaginary, c.imaginary)?,
    })
}

/// How many iterations c gets before it escapes: `LIMIT` if it does not in so many.
pub fn iterations(c: Point) -> u32
    ensures { result ≤ 1000 }
{
    let mut z = Point {
        real: 0,
        imaginary: 0,
    };
    for count in 0..LIMIT {
        match next(z, c) {
            Some(after) => z = after,
            None => return count,
        }
    }
    LIMIT
}
