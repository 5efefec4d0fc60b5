//! Moving the points of a path.
ghost use Rattle.std.specs.Prelude.{◌≡◌, map};
ghost use Rattle.path.specs.Held.{held, rewritten};
ghost use Rattle.path.specs.Points.{moved};

use super::Path;
use crate::point::{PathPoint, Side};
use slice_vec::map::Map;

impl Map<PathPoint, PathPoint> for Side {
    ghost image = { moved };

    fn image(&self, source: PathPoint) -> PathPoint {
        source.moved(*self)
    }
}

impl<'a> Path<'a> {
    /// Moves every point to a side of it.
    pub fn move_points(&mut self, side: Side)
        ensures { held self.new ≡ rewritten (held self.old) (map (moved side) (held self.old).used) }
    {
        self.list.change_all(&side);
    }
}
