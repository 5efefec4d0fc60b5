//! A line record: it replaces the path.
ghost use Rattle.std.specs.Prelude.{◌≡◌, map};
ghost use Rattle.path.specs.Held.{held};
ghost use Rattle.drawing_file.specs.Values.{first_place};
ghost use Rattle.drawing_file.specs.Replaced.{crowded, remains, replaced};

use crate::decode;
use emath::plane::Pos2;
use path::fault::PathFault;
use path::path::Path;

/// Why a line with more places than the memory holds is refused: for a place out of its limits,
/// for having fewer than two places, and else for want of space.
fn crowded(places: &[[u8; 8]]) -> PathFault
    ensures { result ≡ crowded (map first_place places.now) }
{
    if !decode::all_within(places) {
        PathFault::OutOfLimits
    } else if places.len() < 2 {
        PathFault::TooFewPoints
    } else {
        PathFault::NoSpace
    }
}

/// Empties the path and adds the line of the record.
pub(crate) fn replace(path: &mut Path, memory: &mut [Pos2], body: &[u8]) -> Result<(), PathFault>
    ensures { remains result path.new memory.new ≡ replaced body.now (held path.old) memory.old }
{
    path.clear();
    let (places, _) = body.as_chunks::<8>();
    let n = places.len();
    if n > memory.len() {
        return Err(crowded(places));
    }
    decode::read_places(places, memory);
    path.add_open_points(&memory[..n])
}
