//! Thick lines of a few points and of many, cut for 16-bit indices. The expected output was made by running the crate
//! epaint 0.36.2 on the same lines.
#![tactic(auto)]

use cutting::cut::split_to_u16;
use cutting::part::Part;
use ecolor::color::Color32;
use ecolor::rule::Solid;
use ecolor::vertex::{TextureId, Vertex};
use emath::plane::Pos2;
use path::path::Path;
use path::point::PathPoint;
use tessellator::finished::Finished;
use tessellator::mesh::Mesh;
use tessellator::stroke::open::stroke_open;
use tessellator::stroke::{PathStroke, StrokeKind};

const WHITE: Solid = Solid {
    color: Color32 {
        r: 255,
        g: 255,
        b: 255,
        a: 255,
    },
};

/// Prints the parts, and the sum of all 16-bit indices.
fn print_parts(rt: &HostRuntime, mesh: &Finished) -> anyhow::Result<()> {
    let mut indices = vec![in rt.alloc(); 0u16; 300_000]?;
    let mut parts = [Part::default(); 4];
    match split_to_u16(mesh, &mut indices, &mut parts) {
        Ok(count) => {
            println!(rt; "cut: parts {count}")?;
            for part in parts.iter().take(count) {
                let (v, n, i, k) = (
                    part.first_vertex,
                    part.vertex_count,
                    part.first_index,
                    part.index_count,
                );
                println!(rt; "  part {v} {n} {i} {k}")?;
            }
        }
        Err(fault) => {
            let number = fault.number();
            println!(rt; "cut: refused {number}")?;
        }
    }
    let sum = indices
        .iter()
        .fold(0u64, |sum, index| sum.saturating_add(u64::from(*index)));
    println!(rt; "  sum {sum}")?;
    Ok(())
}

/// A line of so many points, one apart.
fn print_line(rt: &HostRuntime, length: u16) -> anyhow::Result<()> {
    let heap = rt.alloc();
    let mut places = Vec::new(heap);
    for i in 0..length {
        places.push(Pos2 {
            x: f32::from(i),
            y: 0.0,
        })?;
    }
    let mut points = vec![in heap; PathPoint::default(); 20_000]?;
    let mut vertices = vec![in heap; Vertex::default(); 70_000]?;
    let mut indices = vec![in heap; 0u32; 300_000]?;
    let mut path = Path::new(&mut points);
    let mut mesh = Mesh::with_texture(TextureId::DEFAULT, &mut vertices, &mut indices);
    if path.add_open_points(&places).is_err() {
        println!(rt; "line: refused")?;
    }
    let stroke = PathStroke {
        width: 3.0,
        color: WHITE,
        kind: StrokeKind::Middle,
    };
    if stroke_open(&mut path, 1.0, &stroke, &mut mesh).is_err() {
        println!(rt; "stroke: refused")?;
    }
    print_parts(rt, &mesh.finish())
}

fn main(rt: HostRuntime) -> anyhow::Result<()> {
    print_line(&rt, 3)?;
    print_line(&rt, 16_383)?;
    print_line(&rt, 16_384)
}
