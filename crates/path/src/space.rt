//! Whether there is space for what a call would leave.
ghost use Rattle.std.specs.Prelude.{◌≡◌};
ghost use Rattle.path.specs.Builders.{reserved};

use crate::fault::PathFault;

/// The most points of a path, and the most places of a list.
pub(crate) const MAX_ITEMS: usize = 1_048_576;

/// Refuses more items than there is space for.
pub(crate) fn check_space(count: usize, space: usize) -> Result<(), PathFault>
    ensures { result ≡ reserved count space }
{
    if count > space {
        return Err(PathFault::NoSpace);
    }
    Ok(())
}
