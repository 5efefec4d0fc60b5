//! Cutting a mesh.
ghost use Rattle.std.specs.Prelude.{◌≡◌, ◌*◌, ◌≤◌, map, length};
ghost use Rattle.std.specs.List.{AllByRecursion};
ghost use Rattle.tessellator.specs.State.{finished_state};
ghost use Rattle.cutting.specs.Cutting.{cut, Narrow};
ghost use Rattle.cutting.specs.Outcome.{left, on_front, space_for, run_count, in_one, in_runs, cutting};
ghost use Rattle.cutting.specs.Parts.{less, lowered, parts_from, Within};
ghost use Rattle.cutting.specs.Promises.{Fewest, Complete, Faithful};
ghost use Rattle.tessellator.specs.Triangles.{named};

use crate::fault::CutFault;
use crate::part::Part;
use crate::run::{Runs, indices_of};
use crate::span::{MAX_SPAN, Span};
use ecolor::vertex::TextureId;
use tessellator::finished::Finished;

// The two memories stay two parameters: methods of a struct that lends both would each have to promise that it keeps both references.
/// Refuses where there is no space for so many indices and parts.
fn check_space(
    index_count: usize,
    part_count: usize,
    indices: &[u16],
    parts: &[Part],
) -> Result<(), CutFault>
    ensures { result ≡ space_for index_count part_count (length indices.now) (length parts.now) }
{
    if indices.len() < index_count {
        return Err(CutFault::NoIndexSpace);
    }
    if parts.len() < part_count {
        return Err(CutFault::TableTooShort);
    }
    Ok(())
}

/// Writes the indices, each less by `least`, to the front of the memory.
fn lower(source: &[u32], least: u32, indices: &mut [u16])
    requires space { length source.now ≤ length indices.old }
    requires within { Within least source.now }
    ensures { indices.new ≡ on_front (less least source.now) indices.old }
{
    // By number, since over `indices.iter_mut().zip(source)` nothing is known of what was written; by `as`, since no cast loses a bit.
    for (i, index) in source.iter().enumerate() {
        indices[i] = (*index - least) as u16;
    }
}

/// How many runs the triangles make. Refuses where no part can hold one of them.
fn count_runs(triangles: &[[u32; 3]]) -> Result<usize, CutFault>
    ensures { result ≡ run_count (map named triangles.now) }
{
    let mut passed = 0;
    let mut count = 0;
    for run in Runs(triangles) {
        // A run that no part can hold is one triangle.
        if !run.span.fits() {
            return Err(CutFault::Span(passed));
        }
        passed += run.triangles.len();
        count += 1;
    }
    Ok(count)
}

/// Writes each run as a part: its vertices from the least to the greatest index, and its indices less by the least.
fn write_runs(
    triangles: &[[u32; 3]],
    texture_id: TextureId,
    indices: &mut [u16],
    parts: &mut [Part],
)
    requires narrow { AllByRecursion Narrow (map named triangles.now) }
    requires space { 3 * length triangles.now ≤ length indices.old }
    requires table { length (cut (map named triangles.now)) ≤ length parts.old }
    ensures lowers { indices.new ≡ on_front (lowered (cut (map named triangles.now))) indices.old }
    ensures lists { parts.new ≡ on_front (parts_from 0 texture_id (cut (map named triangles.now))) parts.old }
{
    let mut runs = Runs(triangles);
    let mut first_index = 0;
    // Not a `zip` of the parts and the runs: over one nothing is known of what was written.
    for part in parts.iter_mut() {
        let Some(run) = runs.next() else {
            break;
        };
        let source = indices_of(run.triangles);
        let end = first_index + source.len();
        lower(source, run.span.least, &mut indices[first_index..end]);
        *part = Part {
            first_vertex: run.span.least as usize,
            vertex_count: run.span.width(),
            first_index,
            index_count: source.len(),
            texture_id,
        };
        first_index = end;
    }
}

/// The whole mesh as one part.
fn split_whole(mesh: &Finished, indices: &mut [u16], parts: &mut [Part]) -> Result<usize, CutFault>
    requires { length (finished_state mesh.now).vertices ≤ 65535 }
    ensures { left result indices.new parts.new ≡ in_one (finished_state mesh.now) indices.old parts.old }
{
    let source = mesh.indices();
    check_space(source.len(), 1, indices, parts)?;
    lower(source, 0, indices);
    parts[0] = Part {
        first_vertex: 0,
        vertex_count: mesh.vertices().len(),
        first_index: 0,
        index_count: source.len(),
        texture_id: mesh.texture_id(),
    };
    Ok(1)
}

/// The runs of the mesh as parts.
fn split_runs(mesh: &Finished, indices: &mut [u16], parts: &mut [Part]) -> Result<usize, CutFault>
    ensures { left result indices.new parts.new ≡ in_runs (finished_state mesh.now) indices.old parts.old }
{
    let source = mesh.indices();
    let (triangles, _) = source.as_chunks::<3>();
    let count = count_runs(triangles)?;
    check_space(source.len(), count, indices, parts)?;
    write_runs(triangles, mesh.texture_id(), indices, parts);
    Ok(count)
}

/// Cuts a mesh into parts for 16-bit indices. Up to 65,535 vertices are one part. Above that a part takes triangles in
/// order until the next would make it span more than 65,535 vertices.
/// The parts go to the front of the table, their indices to the front of the memory, and the answer is the count of parts.
/// A refusal writes nothing.
pub fn split_to_u16(
    mesh: &Finished,
    indices: &mut [u16],
    parts: &mut [Part],
) -> Result<usize, CutFault>
    ensures left { left result indices.new parts.new ≡ cutting (finished_state mesh.now) indices.old parts.old }
    ensures fewest { Fewest (finished_state mesh.now) (left result indices.new parts.new) }
    ensures complete { Complete (finished_state mesh.now) (left result indices.new parts.new) }
    ensures faithful { Faithful (finished_state mesh.now) (left result indices.new parts.new) }
{
    if mesh.vertices().len() <= MAX_SPAN {
        split_whole(mesh, indices, parts)
    } else {
        split_runs(mesh, indices, parts)
    }
}
