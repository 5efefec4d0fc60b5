//! A finished mesh, to which nothing more is added.
use crate::mesh::Mesh;

pub mod read;

/// A mesh, for reading only.
#[derive(Drop)]
pub struct Finished<'a> {
    pub(crate) mesh: Mesh<'a>,
}
