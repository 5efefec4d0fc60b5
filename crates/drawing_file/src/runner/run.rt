//! Running a file.
ghost use Rattle.std.specs.Prelude.{◌≡◌};
ghost use Rattle.path.specs.Held.{held};
ghost use Rattle.tessellator.specs.State.{mesh_state};
ghost use Rattle.drawing_file.specs.Faults.{told};
ghost use Rattle.drawing_file.specs.Format.{item};
ghost use Rattle.drawing_file.specs.Laws.{Heads, Leaves, listed};
ghost use Rattle.drawing_file.specs.Runs.{run_state, started, answered, stepped, first_run, told_at, along, first_figure, next};

use super::{Figure, Refusal, Runner, Waiting};
use crate::decode::Paint;
use crate::fault::FileFault;
use crate::record::Record;
use crate::{line, record};
use emath::plane::Pos2;
use path::path::Path;
use tessellator::fault::Appended;
use tessellator::mesh::Mesh;
use tessellator::stroke::open::stroke_open;

/// The most bytes that a file may have.
const MAX_BYTES: usize = 49_152;

impl<'r, 'a> Runner<'r, 'a> {
    /// A runner at the start of a file. `places` is memory for the places of one line: 6,144 are enough for any file.
    pub fn new(
        bytes: &'r [u8],
        path: &'r mut Path<'a>,
        places: &'r mut [Pos2],
        mesh: &'r mut Mesh<'a>,
    ) -> Runner<'r, 'a>
        ensures { run_state result ≡ started bytes.now (held path.old) places.old (mesh_state mesh.old) }
    {
        Runner {
            rest: bytes,
            size: bytes.len(),
            path,
            places,
            mesh,
            waiting: Waiting::Nothing,
            figures: 0,
        }
    }

    /// Runs one record. A paint answers the size of its figure.
    #[tactic(auto, unfolding(crate::specs::Solids::solid_outcome))]
    fn step(&mut self, record: Record) -> Result<Option<Appended>, FileFault>
        ensures { answered (told result) (run_state self.new) ≡ stepped (run_state self.old) (item «record».entry) }
    {
        match (self.waiting, record) {
            (_, Record::Line(body)) => {
                self.waiting = Waiting::Nothing;
                line::replace(self.path, self.places, body)?;
                self.waiting = Waiting::OpenLine;
                Ok(None)
            }
            (Waiting::Nothing, Record::Paint(_)) => Err(FileFault::PaintWithoutPath),
            (Waiting::OpenLine, Record::Paint(bytes)) => {
                let paint = Paint::from(bytes);
                if !paint.fill.is_transparent() {
                    return Err(FileFault::FilledOpenLine);
                }
                let size = stroke_open(self.path, paint.feathering, &paint.stroke, self.mesh)?;
                self.path.clear();
                self.waiting = Waiting::Nothing;
                Ok(Some(size))
            }
        }
    }

    /// Runs the first record that is not read yet.
    fn run_first(&mut self) -> Result<Option<Figure>, FileFault>
        ensures { answered (told result) (run_state self.new) ≡ first_run (run_state self.old) }
    {
        let reading = record::next_record(self.rest)?;
        let drawn = self.step(reading.record)?;
        self.rest = reading.rest;
        let Some(size) = drawn else {
            return Ok(None);
        };
        self.figures += 1;
        let number = self.figures;
        Ok(Some(Figure { number, size }))
    }

    /// Runs records until one has drawn a figure.
    fn run_on(&mut self) -> Result<Option<Figure>, Refusal>
        ensures { answered (told_at result) (run_state self.new) ≡ along first_figure (run_state self.old) }
    {
        while !self.rest.is_empty() {
            let at = self.size - self.rest.len();
            match self.run_first() {
                Ok(None) => {}
                Ok(Some(figure)) => return Ok(Some(figure)),
                Err(fault) => return Err(Refusal { fault, at }),
            }
        }
        Ok(None)
    }

    /// The next figure of the file, drawn. At the end of the file there is none.
    /// A refusal leaves the figures before it, and does not pass its record.
    pub fn next_figure(&mut self) -> Result<Option<Figure>, Refusal>
        ensures run { answered (told_at result) (run_state self.new) ≡ next (run_state self.old) }
        ensures list { Heads (told_at result) (listed (run_state self.old)) (run_state self.new) }
        ensures leaves { Leaves (told_at result) (run_state self.old) (run_state self.new) }
    {
        if self.size > MAX_BYTES {
            return Err(Refusal {
                fault: FileFault::CutShort,
                at: MAX_BYTES,
            });
        }
        self.run_on()
    }
}
