//! Open strokes of each style and kind, printed in full. The expected output was made by running the crate epaint 0.36.2
//! on the same lines and strokes.
#![tactic(auto)]

use ecolor::color::Color32;
use ecolor::rule::{ColorRule, Solid, Zones};
use ecolor::vertex::{TextureId, Vertex};
use emath::plane::Pos2;
use path::path::Path;
use path::point::PathPoint;
use printed::{Lines, Printed};
use std::fmt;
use tessellator::mesh::Mesh;
use tessellator::stroke::open::stroke_open;
use tessellator::stroke::{PathStroke, StrokeKind};

const STRAIGHT: [Pos2; 2] = [Pos2 { x: 0.0, y: 0.0 }, Pos2 { x: 3.0, y: 4.0 }];

const CORNER: [Pos2; 3] = [
    Pos2 { x: 0.0, y: 0.0 },
    Pos2 { x: 10.0, y: 0.0 },
    Pos2 { x: 10.0, y: 10.0 },
];

const SHARP: [Pos2; 3] = [
    Pos2 { x: 0.0, y: 0.0 },
    Pos2 { x: 10.0, y: 0.0 },
    Pos2 { x: 0.0, y: 1.0 },
];

const DOUBLED: [Pos2; 5] = [
    Pos2 { x: 0.0, y: 0.0 },
    Pos2 { x: 0.0, y: 0.0 },
    Pos2 { x: 10.0, y: 0.0 },
    Pos2 { x: 10.0, y: 0.0 },
    Pos2 { x: 10.0, y: 5.0 },
];

const CREAM: Color32 = Color32 {
    r: 255,
    g: 240,
    b: 200,
    a: 255,
};

const CLEAR: Solid = Solid {
    color: Color32::TRANSPARENT,
};

const PLAIN: Solid = Solid { color: CREAM };

const SCALE: Zones = Zones {
    first: Color32 {
        r: 255,
        g: 0,
        b: 0,
        a: 255,
    },
    second: Color32 {
        r: 0,
        g: 255,
        b: 0,
        a: 255,
    },
    third: Color32 {
        r: 0,
        g: 0,
        b: 255,
        a: 255,
    },
    last: Color32 {
        r: 1,
        g: 2,
        b: 3,
        a: 4,
    },
};

fn print_all<T: Copy>(rt: &HostRuntime, items: &[T]) -> anyhow::Result<()>
where
    Printed<T>: fmt::Display,
{
    print!(rt; "{}", Lines(items))?;
    Ok(())
}

fn print_triangles(rt: &HostRuntime, indices: &[u32]) -> anyhow::Result<()> {
    for corners in indices.chunks(3) {
        if let [a, b, c] = corners {
            println!(rt; "  triangle {a} {b} {c}")?;
        }
    }
    Ok(())
}

/// Draws one line into an empty mesh, and prints the path and the mesh afterwards.
fn print_stroke<C: ColorRule>(
    rt: &HostRuntime,
    places: &[Pos2],
    feathering: f32,
    stroke: &PathStroke<C>,
) -> anyhow::Result<()> {
    let mut points = [PathPoint::default(); 16];
    let mut vertices = [Vertex::default(); 64];
    let mut indices = [0u32; 256];
    let mut path = Path::new(&mut points);
    let mut mesh = Mesh::with_texture(TextureId::DEFAULT, &mut vertices, &mut indices);
    if let Err(fault) = path.add_open_points(places) {
        let number = fault.number();
        println!(rt; "line: refused {number}")?;
    }
    match stroke_open(&mut path, feathering, stroke, &mut mesh) {
        Ok(size) => {
            let v = size.vertices;
            let i = size.indices;
            println!(rt; "stroke: appended {v} {i}")?;
        }
        Err(fault) => {
            let number = fault.number();
            println!(rt; "stroke: refused {number}")?;
        }
    }
    print_all(rt, path.as_slice())?;
    print_all(rt, mesh.vertices())?;
    print_triangles(rt, mesh.indices())
}

/// A line over the places in a colour rule.
fn print_in<C: ColorRule + Copy>(
    rt: &HostRuntime,
    places: &[Pos2],
    feathering: f32,
    width: f32,
    kind: StrokeKind,
    color: C,
) -> anyhow::Result<()> {
    print_stroke(rt, places, feathering, &PathStroke { width, color, kind })
}

fn main(rt: HostRuntime) -> anyhow::Result<()> {
    print_in(&rt, &STRAIGHT, 1.0, 2.0, StrokeKind::Middle, PLAIN)?;
    print_in(&rt, &STRAIGHT, 1.0, 0.5, StrokeKind::Middle, PLAIN)?;
    print_in(&rt, &STRAIGHT, 0.0, 2.0, StrokeKind::Middle, PLAIN)?;
    print_in(&rt, &CORNER, 1.0, 3.0, StrokeKind::Inside, PLAIN)?;
    print_in(&rt, &SHARP, 1.0, 3.0, StrokeKind::Outside, PLAIN)?;
    print_in(&rt, &SHARP, 3.0, 2.7, StrokeKind::Middle, PLAIN)?;
    print_in(&rt, &CORNER, 1.0, 0.0, StrokeKind::Inside, PLAIN)?;
    print_in(&rt, &DOUBLED, 1.0, 4.0, StrokeKind::Middle, SCALE)?;
    print_in(&rt, &CORNER, 2.0, 1.5, StrokeKind::Outside, SCALE)?;
    print_in(&rt, &SHARP, 0.0, 2.5, StrokeKind::Inside, SCALE)?;
    print_in(&rt, &CORNER, 1.0, 2.0, StrokeKind::Inside, CLEAR)
}
