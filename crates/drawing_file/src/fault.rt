//! Why a drawing file is refused.
ghost use Rattle.std.specs.Prelude.{◌≡◌};
ghost use Rattle.drawing_file.specs.Faults.{cause_of};
ghost use Rattle.drawing_file.specs.declared.fault.FileFault.TheVariants.{Path, Figure};

use path::fault::PathFault;
use tessellator::fault::FigureFault;

/// Whose rule is broken. Each layer numbers its own refusals.
#[derive(Clone, Copy)]
pub enum Layer {
    File,
    Path,
    Figure,
}

#[derive(Clone, Copy)]
pub enum FileFault {
    /// The bytes end inside a record, or there are more than a file may have.
    CutShort,
    UnknownTag,
    /// A record's length is not one that its tag allows.
    WrongLength,
    PaintWithoutPath,
    FilledOpenLine,
    UnknownKind,
    /// The path's own refusal.
    Path(PathFault),
    /// The figure's own refusal.
    Figure(FigureFault),
}

impl From<PathFault> for FileFault {
    ghost from_gives = { λ fault r. r ≡ Path fault };

    fn from(value: PathFault) -> FileFault {
        FileFault::Path(value)
    }
}

impl From<FigureFault> for FileFault {
    ghost from_gives = { λ fault r. r ≡ Figure fault };

    fn from(value: FigureFault) -> FileFault {
        FileFault::Figure(value)
    }
}

impl FileFault {
    /// The number of the refusal in its layer.
    pub fn number(self) -> u8
        ensures { result ≡ (cause_of self).number }
    {
        // By a match, since two cases carry refusals of other layers.
        match self {
            FileFault::CutShort => 11,
            FileFault::UnknownTag => 12,
            FileFault::WrongLength => 13,
            FileFault::PaintWithoutPath => 14,
            FileFault::FilledOpenLine => 15,
            FileFault::UnknownKind => 16,
            FileFault::Path(fault) => fault.number(),
            FileFault::Figure(fault) => fault.number(),
        }
    }

    pub fn layer(self) -> Layer
        ensures { result ≡ (cause_of self).layer }
    {
        match self {
            FileFault::Path(_) => Layer::Path,
            FileFault::Figure(_) => Layer::Figure,
            _ => Layer::File,
        }
    }
}
