//! Reads a drawing file from standard input, draws its figures into a mesh, and prints the listing.
#![tactic(auto)]

use anyhow::anyhow;
use cutting::cut::split_to_u16;
use cutting::part::Part;
use drawing_file::listing::Parts;
use drawing_file::runner::Runner;
use ecolor::vertex::{TextureId, Vertex};
use emath::plane::Pos2;
use path::path::Path;
use path::point::PathPoint;
use std::io::Read;
use tessellator::finished::Finished;
use tessellator::mesh::Mesh;

/// One byte more than a file may have, so that a longer one is seen.
const READ_BYTES: u64 = 49_153;

/// Prints a line for each figure, or for the refusal that ends the file.
fn print_figures(rt: &HostRuntime, bytes: &[u8], runner: &mut Runner) -> anyhow::Result<()> {
    // Each figure takes at least one byte, so the file ends within so many turns.
    for _ in 0..=bytes.len() {
        match runner.next_figure() {
            Ok(Some(figure)) => println!(rt; "{figure}")?,
            Ok(None) => return Ok(()),
            Err(refusal) => {
                println!(rt; "{refusal}")?;
                return Err(anyhow!("the file is refused"));
            }
        }
    }
    Ok(())
}

/// Cuts the mesh, and prints the count of its parts.
fn print_parts(rt: &HostRuntime, mesh: &Finished) -> anyhow::Result<()> {
    let mut indices = [0u16; 12_288];
    let mut parts = [Part::default(); 1];
    match split_to_u16(mesh, &mut indices, &mut parts) {
        Ok(count) => {
            let line = Parts(count);
            println!(rt; "{line}")?;
            Ok(())
        }
        Err(_) => Err(anyhow!("the mesh is not cut")),
    }
}

fn main(rt: HostRuntime) -> anyhow::Result<()> {
    let mut bytes = Vec::new(rt.alloc());
    rt.stdin().take(READ_BYTES).read_to_end(&mut bytes)?;
    let mut points = [PathPoint::default(); 512];
    let mut places = [Pos2::default(); 6_144];
    let mut vertices = [Vertex::default(); 2_048];
    let mut indices = [0u32; 12_288];
    let mut path = Path::new(&mut points);
    let mut mesh = Mesh::with_texture(TextureId::DEFAULT, &mut vertices, &mut indices);
    let mut runner = Runner::new(&bytes, &mut path, &mut places, &mut mesh);
    print_figures(&rt, &bytes, &mut runner)?;
    print_parts(&rt, &mesh.finish())
}
