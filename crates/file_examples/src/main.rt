//! Drawing files, good and bad, and what the library answers of each. The expected output was written by hand from the format.
#![tactic(auto)]

use drawing_file::runner::Runner;
use ecolor::vertex::{TextureId, Vertex};
use emath::plane::Pos2;
use path::path::Path;
use path::point::PathPoint;
use tessellator::mesh::Mesh;

/// From (0, 0) to (3, 4).
const LINE: [u8; 19] = [
    2, 0, 16, 0, 0, 0, 0, 0, 0, 0, 0, 0x40, 0x40, 0, 0, 0x40, 0x80, 0, 0,
];
/// From (0, 0) to where x is not a number.
const NO_NUMBER: [u8; 19] = [
    2, 0, 16, 0, 0, 0, 0, 0, 0, 0, 0, 0x7f, 0xc0, 0, 1, 0x40, 0x80, 0, 0,
];
/// White, width 2, feathering 1, middle.
const PAINT: [u8; 20] = [
    5, 0, 17, 0, 0, 0, 0, 255, 255, 255, 255, 0x40, 0, 0, 0, 0x3f, 0x80, 0, 0, 1,
];

const FILLED: [u8; 20] = [
    5, 0, 17, 0, 0, 0, 1, 255, 255, 255, 255, 0x40, 0, 0, 0, 0x3f, 0x80, 0, 0, 1,
];

const NO_WIDTH: [u8; 20] = [
    5, 0, 17, 0, 0, 0, 0, 255, 255, 255, 255, 0, 0, 0, 0, 0x3f, 0x80, 0, 0, 1,
];

const BELOW_ZERO: [u8; 20] = [
    5, 0, 17, 0, 0, 0, 0, 255, 255, 255, 255, 0xc0, 0, 0, 0, 0x3f, 0x80, 0, 0, 1,
];

const KIND_3: [u8; 20] = [
    5, 0, 17, 0, 0, 0, 1, 255, 255, 255, 255, 0x40, 0, 0, 0, 0x3f, 0x80, 0, 0, 3,
];

/// Prints the figures of a file, and how it ends.
fn print_figures<'r, 'a>(
    rt: &HostRuntime,
    bytes: &'r [u8],
    path: &'r mut Path<'a>,
    places: &'r mut [Pos2],
    mesh: &'r mut Mesh<'a>,
) -> anyhow::Result<()> {
    let mut runner = Runner::new(bytes, path, places, mesh);
    for _ in 0..=bytes.len() {
        match runner.next_figure() {
            Ok(Some(figure)) => println!(rt; "  {figure}")?,
            Ok(None) => {
                println!(rt; "  end")?;
                return Ok(());
            }
            Err(refusal) => {
                println!(rt; "  {refusal}")?;
                return Ok(());
            }
        }
    }
    Ok(())
}

fn print_in<'x>(
    rt: &HostRuntime,
    bytes: &'x [u8],
    texture: TextureId,
    points: &'x mut [PathPoint],
    places: &'x mut [Pos2],
    vertices: &'x mut [Vertex],
    indices: &'x mut [u32],
) -> anyhow::Result<()> {
    let mut path = Path::new(points);
    let mut mesh = Mesh::with_texture(texture, vertices, indices);
    print_figures(rt, bytes, &mut path, places, &mut mesh)
}

/// How many points, vertices and indices are lent.
#[derive(Clone, Copy)]
struct Room {
    points: usize,
    vertices: usize,
    indices: usize,
}

impl Room {
    fn new(points: usize, vertices: usize, indices: usize) -> Room {
        Room {
            points,
            vertices,
            indices,
        }
    }
}

/// Runs a file in memory of such a size.
fn print_file_in(
    rt: &HostRuntime,
    name: &str,
    bytes: &[u8],
    texture: TextureId,
    room: Room,
) -> anyhow::Result<()> {
    println!(rt; "{name}")?;
    let heap = rt.alloc();
    let mut points = vec![in heap; PathPoint::default(); room.points]?;
    let mut places = vec![in heap; Pos2::default(); 6_144]?;
    let mut vertices = vec![in heap; Vertex::default(); room.vertices]?;
    let mut indices = vec![in heap; 0u32; room.indices]?;
    print_in(
        rt,
        bytes,
        texture,
        &mut points,
        &mut places,
        &mut vertices,
        &mut indices,
    )
}

fn print_file(rt: &HostRuntime, name: &str, bytes: &[u8]) -> anyhow::Result<()> {
    print_file_in(
        rt,
        name,
        bytes,
        TextureId::DEFAULT,
        Room::new(512, 2_048, 12_288),
    )
}

/// One record after another.
fn print_records(rt: &HostRuntime, name: &str, records: &[&[u8]]) -> anyhow::Result<()> {
    let mut bytes = Vec::new(rt.alloc());
    for record in records {
        bytes.extend_from_slice(record)?;
    }
    print_file(rt, name, &bytes)
}

fn print_faults_of_records(rt: &HostRuntime) -> anyhow::Result<()> {
    print_file(rt, "an empty file", &[])?;
    print_file(rt, "an unknown tag, cut off in its length", &[6, 0])?;
    print_file(rt, "an unknown tag", &[6, 0, 0])?;
    print_file(rt, "a line cut off", &[2, 0, 8, 0])?;
    print_file(rt, "a line of one byte", &[2, 0, 1, 7])?;
    print_file(rt, "a line of no places", &[2, 0, 0])?;
    print_file(rt, "a paint of no bytes", &[5, 0, 0])?;
    print_file(rt, "kind 3, with no path and a fill", &KIND_3)?;
    print_file(rt, "paint without a path", &PAINT)?;
    print_file(rt, "a place that is not a number", &NO_NUMBER)
}

fn print_faults_in_order(rt: &HostRuntime) -> anyhow::Result<()> {
    print_records(rt, "a line, painted", &[&LINE, &PAINT])?;
    print_records(rt, "a line that replaces another", &[&LINE, &LINE, &PAINT])?;
    print_records(
        rt,
        "two lines, each painted",
        &[&LINE, &PAINT, &LINE, &PAINT],
    )?;
    print_records(rt, "a line, painted twice", &[&LINE, &PAINT, &PAINT])?;
    print_records(rt, "a visible fill", &[&LINE, &FILLED])?;
    print_records(rt, "no width", &[&LINE, &NO_WIDTH])?;
    print_records(rt, "a width below 0", &[&LINE, &BELOW_ZERO])?;
    print_records(
        rt,
        "a refused line that another would have replaced",
        &[&LINE, &NO_NUMBER, &LINE, &PAINT],
    )
}

fn print_faults_of_space(rt: &HostRuntime) -> anyhow::Result<()> {
    let mut bytes = Vec::new(rt.alloc());
    bytes.extend_from_slice(&LINE)?;
    bytes.extend_from_slice(&PAINT)?;
    print_file_in(
        rt,
        "space for just the figure",
        &bytes,
        TextureId::DEFAULT,
        Room::new(2, 8, 30),
    )?;
    print_file_in(
        rt,
        "one point short",
        &bytes,
        TextureId::DEFAULT,
        Room::new(1, 8, 30),
    )?;
    print_file_in(
        rt,
        "one vertex and one index short",
        &bytes,
        TextureId::DEFAULT,
        Room::new(2, 7, 29),
    )?;
    print_file_in(
        rt,
        "one index short",
        &bytes,
        TextureId::DEFAULT,
        Room::new(2, 8, 29),
    )?;
    print_file_in(
        rt,
        "another texture, and no space",
        &bytes,
        TextureId::User(0),
        Room::new(2, 0, 0),
    )
}

fn print_faults_of_length(rt: &HostRuntime) -> anyhow::Result<()> {
    let zeros = vec![in rt.alloc(); 0u8; 49_152]?;
    print_file(rt, "49,152 bytes", &zeros)?;
    let zeros = vec![in rt.alloc(); 0u8; 49_153]?;
    print_file(rt, "49,153 bytes", &zeros)
}

fn main(rt: HostRuntime) -> anyhow::Result<()> {
    print_faults_of_records(&rt)?;
    print_faults_in_order(&rt)?;
    print_faults_of_space(&rt)?;
    print_faults_of_length(&rt)
}
