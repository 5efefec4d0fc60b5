//! Why a mesh is not cut.
ghost use Rattle.std.specs.Prelude.{◌≡◌};
ghost use Rattle.cutting.specs.Faults.{number_of};

#[derive(Clone, Copy, PartialEq, Eq)]
pub enum CutFault {
    /// A triangle alone spans more than 65,535 vertices: the first such triangle, counted from 0.
    Span(usize),
    /// The memory for the 16-bit indices is shorter than the indices.
    NoIndexSpace,
    /// The table is shorter than the parts.
    TableTooShort,
}

impl CutFault {
    /// The number of the refusal.
    pub fn number(self) -> u8
        ensures { result ≡ number_of self }
    {
        // By a match, since one case carries a value.
        match self {
            CutFault::Span(_) => 8,
            CutFault::TableTooShort => 9,
            CutFault::NoIndexSpace => 10,
        }
    }
}
