//! How long it takes to build open lines, loops and circles in memory that is lent once and used again. Standard output
//! has the numbers of points, standard error the nanoseconds for each path: the least of many batches.
#![tactic(auto)]

use anyhow::anyhow;
use emath::plane::Pos2;
use path::fault::PathFault;
use path::path::Path;
use path::point::PathPoint;
use std::num::nearest_u32_to_f32;
use std::time::Instant;

const CENTER: Pos2 = Pos2 { x: 5.0, y: 6.0 };

const LENGTHS: [u16; 3] = [4, 128, 1000];

const RADII: [u16; 5] = [2, 5, 10, 30, 100];

const BATCHES: u32 = 40;

/// About how many points a batch makes.
const BATCH_POINTS: usize = 20_000;

#[derive(Clone, Copy)]
enum Figure<'p> {
    Line(&'p [Pos2]),
    Loop(&'p [Pos2]),
    Circle(f32),
}

/// Places to the right of one another, up and down, so that about half of the corners of a line are cut off.
fn place_at(i: u32) -> Pos2 {
    let x = i.wrapping_mul(37) % 1009;
    let y = i.wrapping_mul(i).wrapping_mul(41) % 89;
    Pos2 {
        x: nearest_u32_to_f32(x) * 0.3,
        y: nearest_u32_to_f32(y) * 0.4,
    }
}

fn build(path: &mut Path, figure: Figure) -> Result<(), PathFault> {
    path.clear();
    match figure {
        Figure::Line(places) => path.add_open_points(places),
        Figure::Loop(places) => path.add_line_loop(places),
        Figure::Circle(radius) => path.add_circle(CENTER, radius),
    }
}

fn build_often(path: &mut Path, figure: Figure, times: usize) -> anyhow::Result<()> {
    for _ in 0..times {
        if build(path, figure).is_err() {
            return Err(anyhow!("refused"));
        }
    }
    Ok(())
}

/// The least time of a batch, over the number of its paths, in tenths of a nanosecond.
fn least_time(rt: &HostRuntime, path: &mut Path, figure: Figure) -> anyhow::Result<u128> {
    build_often(path, figure, 1)?;
    let times = BATCH_POINTS / path.as_slice().len().max(1) + 1;
    let mut least = u128::MAX;
    for _ in 0..BATCHES {
        let start = Instant::now(rt)?;
        build_often(path, figure, times)?;
        least = least.min(start.elapsed(rt)?.as_nanos());
    }
    Ok(least.saturating_mul(10) / times as u128)
}

fn measure(rt: &HostRuntime, name: &str, size: u16, figure: Figure) -> anyhow::Result<()> {
    let mut points = [PathPoint::default(); 2000];
    let mut path = Path::new(&mut points);
    let tenths = least_time(rt, &mut path, figure)?;
    let count = path.as_slice().len();
    let (whole, rest) = (tenths / 10, tenths % 10);
    println!(rt; "{name} {size}: {count} points")?;
    eprintln!(rt; "{name} {size}: {whole}.{rest} ns")?;
    Ok(())
}

fn main(rt: HostRuntime) -> anyhow::Result<()> {
    let mut places = Vec::new(rt.alloc());
    for i in 0..1000 {
        places.push(place_at(i))?;
    }
    for length in LENGTHS {
        if let Some(part) = places.get(0..usize::from(length)) {
            measure(&rt, "line", length, Figure::Line(part))?;
            measure(&rt, "loop", length, Figure::Loop(part))?;
        }
    }
    for radius in RADII {
        measure(&rt, "circle", radius, Figure::Circle(f32::from(radius)))?;
    }
    Ok(())
}
