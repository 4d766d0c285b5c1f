//! The task that draws a band of rows. A poll draws one row.
ghost use Rattle.std.specs.Prelude.{◌≡◌, ◌+◌, ◌*◌, ◌≤◌, ◌<◌, vec_len, vec_capacity};

use crate::colours::colour;
use crate::fixed_point::iterations;
use crate::picture::{Picture, Rows};
use async_executor::{Future, Poll, TaskWaker, Wake};
use std::alloc::{AllocError, Global};
use std::sync::Wait;

/// The bytes of a band: its rows from top to bottom, each pixel red, green and blue.
#[derive(Drop)]
pub struct Pixels {
    pub rows: Rows,
    pub width: u32,
    pub bytes: Vec<u8>,
    ghost whole: { vec_len bytes ≡ 3 * width * rows.count },
}

// A band that has rows left to draw, and room for them.
#[derive(Drop)]
struct Drawing {
    picture: Picture,
    rows: Rows,
    left: u32,
    bytes: Vec<u8>,
    ghost partial: { vec_len bytes + 3 * picture.width * left ≡ 3 * picture.width * rows.count },
    ghost room: { vec_len bytes + 3 * picture.width * left ≤ vec_capacity bytes },
    ghost some: { 0 < left },
    ghost in_band: { left ≤ rows.count },
}

// Adds a pixel to a band.
fn add_pixel(bytes: &mut Vec<u8>, colour: [u8; 3])
    requires { vec_len bytes.old + 3 ≤ vec_capacity bytes.old }
    ensures len { vec_len bytes.new ≡ vec_len bytes.old + 3 }
    ensures capacity { vec_capacity bytes.new ≡ vec_capacity bytes.old }
{
    let [red, green, blue] = colour;
    bytes.push_reserved(red);
    bytes.push_reserved(green);
    bytes.push_reserved(blue);
}

// Adds a row to a band.
fn add_row(bytes: Vec<u8>, picture: Picture, row: u32) -> Vec<u8>
    requires { vec_len bytes + 3 * picture.width ≤ vec_capacity bytes }
    ensures len { vec_len result ≡ vec_len bytes + 3 * picture.width }
    ensures capacity { vec_capacity result ≡ vec_capacity bytes }
{
    let mut bytes = bytes;
    'columns: for column in 0..picture.width {
        add_pixel(&mut bytes, colour(iterations(picture.point(column, row))));
    }
    bytes
}

// A band after one row more.
#[derive(Drop)]
enum Drawn {
    Partial(Drawing),
    Whole(Pixels),
}

// Draws the next row of a band.
#[tactic(auto, using(crate::proofs::Rows::one_row))]
fn draw_row(drawing: Drawing) -> Drawn {
    let Drawing {
        picture,
        rows,
        left,
        bytes,
    } = drawing;
    let row = rows.first + (rows.count - left);
    let bytes = add_row(bytes, picture, row);
    if left == 1 {
        let width = picture.width;
        return Drawn::Whole(Pixels { rows, width, bytes });
    }
    Drawn::Partial(Drawing {
        picture,
        rows,
        left: left - 1,
        bytes,
    })
}

/// The future that draws a band. It is pending from when its bytes are out.
#[derive(Drop)]
pub struct Band {
    drawing: Option<Drawing>,
}

impl Band {
    /// The band of these rows, with room for its bytes, so that its polls need no memory.
    pub fn new(alloc: Global, picture: Picture, rows: Rows) -> Result<Band, AllocError> {
        let size = 3 * picture.width as usize * rows.count as usize;
        let bytes = Vec::with_capacity(alloc, size)?;
        let left = rows.count;
        Ok(Band {
            drawing: Some(Drawing {
                picture,
                rows,
                left,
                bytes,
            }),
        })
    }
}

impl<W: Wake, R: Wait + Drop> Future<TaskWaker<W, R>> for Band {
    type Output = Pixels;

    fn poll(&mut self, w: &TaskWaker<W, R>) -> Poll<Pixels> {
        let Some(drawing) = self.drawing.take() else {
            return Poll::Pending;
        };
        match draw_row(drawing) {
            Drawn::Whole(pixels) => Poll::Ready(pixels),
            Drawn::Partial(drawing) => {
                self.drawing = Some(drawing);
                w.wake();
                Poll::Pending
            }
        }
    }
}
