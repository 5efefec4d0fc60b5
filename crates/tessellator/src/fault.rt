//! What drawing answers.
ghost use Rattle.std.specs.Prelude.{◌≡◌};
ghost use Rattle.tessellator.specs.Faults.{number_of};

/// How many vertices and indices a draw appends.
#[derive(Clone, Copy)]
pub struct Appended {
    pub vertices: usize,
    pub indices: usize,
}

/// Why nothing is drawn, by the numbers of the refusals.
#[derive(Clone, Copy)]
pub enum FigureFault {
    /// A textured fill has fewer than three points.
    TooFewPoints = 1,
    /// A width, a feathering or a place is not finite or outside its limits.
    OutOfLimits = 2,
    /// There is no space for the vertices.
    NoVertexSpace = 4,
    /// There is no space for the indices.
    NoIndexSpace = 5,
    /// Something would be appended, and the mesh has another texture.
    OtherTexture = 6,
    /// An index of a single triangle names no vertex.
    NoVertex = 7,
}

impl FigureFault {
    /// The number of the refusal.
    pub fn number(self) -> u8
        ensures { result ≡ number_of self }
    {
        self as u8
    }
}
