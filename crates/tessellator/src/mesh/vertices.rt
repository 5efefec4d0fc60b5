//! The vertices of a figure in its mesh.

/// They begin with the mesh's vertex `base`, with as many rows of them at each of so many points.
#[derive(Clone, Copy)]
pub(crate) struct Vertices {
    pub(crate) base: u32,
    pub(crate) points: u32,
}
