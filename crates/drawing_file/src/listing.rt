//! The lines of a listing.
ghost use Rattle.std.specs.Prelude.{Some};
ghost use Rattle.drawing_file.specs.Listing.{figure_line, layer_word, refusal_line, parts_line};

use crate::fault::Layer;
use crate::runner::{Figure, Refusal};
use std::fmt;

/// How many parts a mesh is cut into.
#[derive(Clone, Copy)]
pub struct Parts(pub usize);

impl fmt::Display for Figure {
    ghost output = { λ figure. Some (figure_line figure) };

    fn fmt<W: fmt::Write>(&self, f: &mut fmt::Formatter<W>) -> fmt::Result {
        let number = self.number;
        let vertices = self.size.vertices;
        let indices = self.size.indices;
        write!(f, "figure {number}: {vertices} vertices, {indices} indices")
    }
}

impl fmt::Display for Layer {
    ghost output = { λ layer. Some (layer_word layer) };

    fn fmt<W: fmt::Write>(&self, f: &mut fmt::Formatter<W>) -> fmt::Result {
        match self {
            Layer::File => write!(f, "file"),
            Layer::Path => write!(f, "path"),
            Layer::Figure => write!(f, "figure"),
        }
    }
}

impl fmt::Display for Refusal {
    ghost output = { λ refusal. Some (refusal_line refusal) };

    fn fmt<W: fmt::Write>(&self, f: &mut fmt::Formatter<W>) -> fmt::Result {
        let layer = self.fault.layer();
        let number = self.fault.number();
        let at = self.at;
        write!(f, "refused: {layer} {number} at byte {at}")
    }
}

impl fmt::Display for Parts {
    ghost output = { λ parts. Some (parts_line parts) };

    fn fmt<W: fmt::Write>(&self, f: &mut fmt::Formatter<W>) -> fmt::Result {
        let count = self.0;
        write!(f, "parts: {count}")
    }
}
