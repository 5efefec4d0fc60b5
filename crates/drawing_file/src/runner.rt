//! A runner: what is left of a file, and what its records have made so far.
ghost use Rattle.std.specs.Prelude.{◌+◌, ◌<◌, ◌≤◌, length};

use crate::fault::FileFault;
use emath::plane::Pos2;
use path::path::Path;
use tessellator::fault::Appended;
use tessellator::mesh::Mesh;

pub mod run;

/// What waits for paint. The line itself stands in the path, so that an `Option` would hold nothing more.
#[derive(Clone, Copy)]
pub enum Waiting {
    Nothing,
    OpenLine,
}

/// A figure that was drawn. The first of a file has the number 1.
#[derive(Clone, Copy)]
pub struct Figure {
    pub number: usize,
    pub size: Appended,
}

/// A fault, and the first byte of its record.
#[derive(Clone, Copy)]
pub struct Refusal {
    pub fault: FileFault,
    pub at: usize,
}

/// Runs the records of a file of `size` bytes, of which `rest` are not read yet.
#[derive(Drop)]
pub struct Runner<'r, 'a> {
    rest: &'r [u8],
    size: usize,
    path: &'r mut Path<'a>,
    places: &'r mut [Pos2],
    mesh: &'r mut Mesh<'a>,
    waiting: Waiting,
    figures: usize,
    ghost few: { size < 18446744073709551616 },
    ghost counted: { figures + length rest.now ≤ size },
}
