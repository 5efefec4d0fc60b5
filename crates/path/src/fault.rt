//! Why a path builder refuses.
ghost use Rattle.std.specs.Prelude.{◌≡◌};
ghost use Rattle.path.specs.Faults.{number_of};

/// With the numbers of the refusals.
#[derive(Clone, Copy)]
pub enum PathFault {
    /// A line has fewer than two points.
    TooFewPoints = 1,
    /// A value is not finite or outside its limits.
    OutOfLimits = 2,
    /// There is no space for what the call would leave.
    NoSpace = 3,
}

impl PathFault {
    /// The number of the refusal.
    pub fn number(self) -> u8
        ensures { result ≡ number_of self }
    {
        self as u8
    }
}
