//! A mesh: triangles in memory that the caller lends.
ghost use Rattle.std.specs.Prelude.{◌≡◌, ℕ, ◌%◌, ◌<◌, length, slice_index};
ghost use Rattle.slice_vec.specs.Held.{held};

use ecolor::vertex::{TextureId, Vertex};
use slice_vec::SliceVec;

pub mod append;
pub mod finish;
mod grow;
mod joint;
mod kinds;
pub mod read;
mod room;
mod rows;
mod triangles;
pub(crate) mod vertices;

const MAX_VERTICES: usize = 16_777_216;

const MAX_INDICES: usize = 100_663_296;

/// Vertices, and indices of which each three name the corners of a triangle.
#[derive(Drop)]
pub struct Mesh<'a> {
    vertices: SliceVec<'a, Vertex, MAX_VERTICES>,
    indices: SliceVec<'a, u32, MAX_INDICES>,
    texture_id: TextureId,
    ghost triangles: { length (held indices).used % 3 ≡ 0 },
    ghost named: { (k : ℕ) → k < length (held indices).used → slice_index (held indices).used k < length (held vertices).used },
}
