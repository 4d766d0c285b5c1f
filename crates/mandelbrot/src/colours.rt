//! The colour of a point, by how long it stays near 0.
use crate::fixed_point::LIMIT;

/// Red, green and blue. A point that does not escape is black.
pub fn colour(iterations: u32) -> [u8; 3] {
    if iterations >= LIMIT {
        return [0, 0, 0];
    }
    [
        wave(iterations, 11),
        wave(iterations, 7),
        wave(iterations, 3),
    ]
}

// Goes up from 0 to 255 and down again, over and over, by so much an iteration.
fn wave(iterations: u32, slope: u32) -> u8 {
    let place = iterations.wrapping_mul(slope) % 511;
    let height = if place <= 255 { place } else { 510 - place };
    height as u8
}
