//! The span of indices.
ghost use Rattle.std.specs.Prelude.{◌≡◌};
ghost use Rattle.tessellator.specs.Triangles.{named};
ghost use Rattle.cutting.specs.Spans as spans;

/// The most vertices that a part has.
pub(crate) const MAX_SPAN: usize = 65_535;

/// The least and the greatest of some indices.
#[derive(Clone, Copy)]
pub(crate) struct Span {
    pub(crate) least: u32,
    pub(crate) greatest: u32,
}

impl Span {
    /// The span of a triangle.
    pub(crate) fn of_triangle(triangle: [u32; 3]) -> Span
        ensures { result ≡ spans.span_of (named triangle) }
    {
        let [x, y, z] = triangle;
        Span {
            least: x.min(y.min(z)),
            greatest: x.max(y.max(z)),
        }
    }

    /// The span of both.
    pub(crate) fn joined(self, other: Span) -> Span
        ensures { result ≡ spans.both self other }
    {
        Span {
            least: self.least.min(other.least),
            greatest: self.greatest.max(other.greatest),
        }
    }

    /// How many vertices there are from the least to the greatest.
    pub(crate) fn width(self) -> usize
        ensures { result ≡ spans.width self }
    {
        self.greatest.saturating_sub(self.least) as usize + 1
    }

    /// Whether a part can hold them.
    pub(crate) fn fits(self) -> bool
        ensures { result ≡ spans.narrow self }
    {
        self.width() <= MAX_SPAN
    }
}
