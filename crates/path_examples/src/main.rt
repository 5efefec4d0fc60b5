//! What each builder leaves in a path or a list of places, printed by the bits of the numbers. The expected output was
//! made by running the crate epaint 0.36.2 on the same arguments.
#![tactic(auto)]

mod cases;

use anyhow::anyhow;
use cases::{CENTER, Line, RIGHT_ANGLE, Rounded};
use emath::plane::{Pos2, Vec2};
use emath::rect::Rect;
use path::corner_radius::CornerRadiusF32;
use path::fault::PathFault;
use path::path::Path;
use path::places::Places;
use path::point::PathPoint;
use printed::{Bits, Lines, Printed};
use std::fmt;

/// The first, the second, the middle one and the last.
fn print_few<T: Copy>(rt: &HostRuntime, items: &[T]) -> anyhow::Result<()>
where
    Printed<T>: fmt::Display,
{
    let count = items.len();
    for i in [0, 1, count / 2, count.saturating_sub(1)] {
        if let Some(item) = items.get(i) {
            println!(rt; "  {}", Printed(*item))?;
        }
    }
    Ok(())
}

/// How many of the items are printed. By name, since two closures would each have to be passed with its bound.
#[derive(Clone, Copy)]
enum Shown {
    All,
    Few,
}

fn print_all<T: Copy>(rt: &HostRuntime, items: &[T]) -> anyhow::Result<()>
where
    Printed<T>: fmt::Display,
{
    print!(rt; "{}", Lines(items))?;
    Ok(())
}

fn print_items<T: Copy>(rt: &HostRuntime, items: &[T], shown: Shown) -> anyhow::Result<()>
where
    Printed<T>: fmt::Display,
{
    match shown {
        Shown::All => print_all(rt, items),
        Shown::Few => print_few(rt, items),
    }
}

fn accepted(answer: Result<(), PathFault>) -> anyhow::Result<()> {
    answer.map_err(|_| anyhow!("refused"))
}

fn print_circle(rt: &HostRuntime, radius: f32, shown: Shown) -> anyhow::Result<()> {
    let mut points = [PathPoint::default(); 129];
    let mut path = Path::new(&mut points);
    accepted(path.add_circle(CENTER, radius))?;
    let count = path.as_slice().len();
    let bits = Bits(radius);
    println!(rt; "circle, radius {bits}: {count} points")?;
    print_items(rt, path.as_slice(), shown)
}

fn print_segment(rt: &HostRuntime, ends: [Pos2; 2]) -> anyhow::Result<()> {
    let [a, b] = ends;
    let mut points = [PathPoint::default(); 2];
    let mut path = Path::new(&mut points);
    accepted(path.add_line_segment(a, b))?;
    println!(rt; "segment: 2 points")?;
    print_all(rt, path.as_slice())
}

fn print_line(rt: &HostRuntime, line: Line) -> anyhow::Result<()> {
    let name = line.name;
    let mut points = [PathPoint::default(); 12];
    let mut path = Path::new(&mut points);
    accepted(path.add_open_points(line.places))?;
    let count = path.as_slice().len();
    println!(rt; "line, {name}: {count} points")?;
    print_all(rt, path.as_slice())
}

// Beside `print_line`: the memory, the word and the call differ, and three parameters for them would be longer.
fn print_loop(rt: &HostRuntime, line: Line) -> anyhow::Result<()> {
    let name = line.name;
    let mut points = [PathPoint::default(); 6];
    let mut path = Path::new(&mut points);
    accepted(path.add_line_loop(line.places))?;
    let count = path.as_slice().len();
    println!(rt; "loop, {name}: {count} points")?;
    print_all(rt, path.as_slice())
}

/// What one builder after another leaves in a path, each behind what was there.
fn print_one_after_another(rt: &HostRuntime) -> anyhow::Result<()> {
    let mut points = [PathPoint::default(); 9];
    let mut path = Path::new(&mut points);
    accepted(path.add_line_segment(CENTER, Pos2::default()))?;
    path.clear();
    accepted(path.add_point(CENTER, Vec2 { x: 0.6, y: -0.8 }))?;
    accepted(path.add_open_points(&RIGHT_ANGLE))?;
    accepted(path.add_line_segment(CENTER, Pos2::default()))?;
    accepted(path.add_line_loop(&RIGHT_ANGLE))?;
    let count = path.as_slice().len();
    println!(rt; "one after another: {count} points")?;
    print_all(rt, path.as_slice())
}

fn print_quadrants(rt: &HostRuntime, radius: f32, shown: Shown) -> anyhow::Result<()> {
    let bits = Bits(radius);
    let mut memory = [Pos2::default(); 33];
    let mut places = Places::new(&mut memory);
    for quadrant in 0u8..4 {
        places.clear();
        accepted(places.add_circle_quadrant(CENTER, radius, quadrant))?;
        let count = places.as_slice().len();
        println!(rt; "quadrant {quadrant}, radius {bits}: {count} places")?;
        print_items(rt, places.as_slice(), shown)?;
    }
    Ok(())
}

/// How many places the four quadrants have together.
fn print_quadrant_count(rt: &HostRuntime, radius: f32) -> anyhow::Result<()> {
    let bits = Bits(radius);
    let mut memory = [Pos2::default(); 132];
    let mut places = Places::new(&mut memory);
    for quadrant in 0u8..4 {
        accepted(places.add_circle_quadrant(CENTER, radius, quadrant))?;
    }
    let count = places.as_slice().len();
    println!(rt; "quadrants, radius {bits}: {count} places")?;
    Ok(())
}

fn rect_of(sides: [f32; 4]) -> Rect {
    let [min_x, min_y, max_x, max_y] = sides;
    Rect {
        min: Pos2 { x: min_x, y: min_y },
        max: Pos2 { x: max_x, y: max_y },
    }
}

fn radii_of(radii: [f32; 4]) -> CornerRadiusF32 {
    let [nw, ne, sw, se] = radii;
    CornerRadiusF32 { nw, ne, sw, se }
}

fn print_rounded(rt: &HostRuntime, rounded: Rounded, shown: Shown) -> anyhow::Result<()> {
    let name = rounded.name;
    let mut memory = [Pos2::default(); 132];
    let mut places = Places::new(&mut memory);
    accepted(places.rounded_rectangle(rect_of(rounded.sides), radii_of(rounded.radii)))?;
    let count = places.as_slice().len();
    println!(rt; "rounded, {name}: {count} places")?;
    print_items(rt, places.as_slice(), shown)
}

/// A rounded rectangle in place of a quadrant, and the loop over it.
fn print_loop_of_rounded(rt: &HostRuntime) -> anyhow::Result<()> {
    let mut memory = [Pos2::default(); 32];
    let mut points = [PathPoint::default(); 32];
    let mut places = Places::new(&mut memory);
    let mut path = Path::new(&mut points);
    accepted(places.add_circle_quadrant(CENTER, 1.5, 2))?;
    accepted(places.rounded_rectangle(
        rect_of([-3.0, 1.0, 12.5, 7.0]),
        radii_of([1.0, 9.0, 0.0, 1.7]),
    ))?;
    accepted(path.add_line_loop(places.as_slice()))?;
    let count = path.as_slice().len();
    println!(rt; "loop of a rounded rectangle: {count} points")?;
    print_all(rt, path.as_slice())
}

fn print_paths(rt: &HostRuntime) -> anyhow::Result<()> {
    for radius in cases::WHOLE_CIRCLES {
        print_circle(rt, radius, Shown::All)?;
    }
    for radius in cases::OTHER_CIRCLES {
        print_circle(rt, radius, Shown::Few)?;
    }
    for ends in cases::SEGMENTS {
        print_segment(rt, ends)?;
    }
    for line in cases::LINES {
        print_line(rt, line)?;
    }
    for line in cases::LOOPS {
        print_loop(rt, line)?;
    }
    print_one_after_another(rt)
}

fn print_places(rt: &HostRuntime) -> anyhow::Result<()> {
    for radius in cases::SMALL_QUADRANTS {
        print_quadrants(rt, radius, Shown::All)?;
    }
    for radius in cases::LARGE_QUADRANTS {
        print_quadrants(rt, radius, Shown::Few)?;
    }
    for radius in cases::COUNTED_QUADRANTS {
        print_quadrant_count(rt, radius)?;
    }
    for rounded in cases::ROUNDED {
        print_rounded(rt, rounded, Shown::All)?;
    }
    for rounded in cases::LARGE_ROUNDED {
        print_rounded(rt, rounded, Shown::Few)?;
    }
    print_loop_of_rounded(rt)
}

fn main(rt: HostRuntime) -> anyhow::Result<()> {
    print_paths(&rt)?;
    print_places(&rt)
}
