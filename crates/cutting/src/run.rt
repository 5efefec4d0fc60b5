//! Runs of triangles.
ghost use Rattle.std.specs.Prelude.{◌≡◌, map};
ghost use Rattle.std.specs.Iterator.{YieldsFirstBy, item_count};
ghost use Rattle.tessellator.specs.Triangles.{flat, named};
ghost use Rattle.cutting.specs.Runs.{seen, runs_left};

use crate::span::Span;

/// Triangles one after the other, and the span of their indices.
#[derive(Clone, Copy)]
pub(crate) struct Run<'a> {
    pub(crate) triangles: &'a [[u32; 3]],
    pub(crate) span: Span,
}

/// The runs of triangles. Each takes triangles in order until the next would make its span too wide for a part.
#[derive(Drop)]
pub(crate) struct Runs<'a>(pub(crate) &'a [[u32; 3]]);

impl<'a> Iterator for Runs<'a> {
    type Item = Run<'a>;

    ghost next_gives = { YieldsFirstBy seen runs_left };

    ghost remaining = { item_count runs_left };

    fn next(&mut self) -> Option<Run<'a>> {
        let (first, others) = self.0.split_first()?;
        let mut span = Span::of_triangle(*first);
        // Counted by hand: the span grows with the count, which no closure of a chain may change.
        let mut end = 1;
        'run: for triangle in others {
            let wider = span.joined(Span::of_triangle(*triangle));
            if !wider.fits() {
                break 'run;
            }
            span = wider;
            end += 1;
        }
        let (triangles, rest) = self.0.split_at(end);
        self.0 = rest;
        Some(Run { triangles, span })
    }
}

/// The indices of triangles, one after the other.
pub(crate) fn indices_of<'a>(triangles: &'a [[u32; 3]]) -> &'a [u32]
    ensures { result.now ≡ flat (map named triangles.now) }
{
    triangles.as_flattened()
}
