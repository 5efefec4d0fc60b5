//! Tests at the limits.
#![tactic(auto)]

#[cfg(test)]
mod tests {
    use cutting::cut::split_to_u16;
    use cutting::part::Part;
    use ecolor::color::Color32;
    use ecolor::rule::Solid;
    use ecolor::vertex::TextureId;
    use emath::plane::{Pos2, Vec2};
    use emath::rect::Rect;
    use path::corner_radius::CornerRadiusF32;
    use path::path::Path;
    use path::places::Places;
    use path::point::PathPoint;
    use tessellator::mesh::Mesh;
    use tessellator::stroke::open::size_of_stroke_open;
    use tessellator::stroke::{PathStroke, StrokeKind};

    const ORIGIN: Pos2 = Pos2 { x: 0.0, y: 0.0 };

    const NO_POINT: PathPoint = PathPoint {
        pos: ORIGIN,
        normal: Vec2::ZERO,
    };

    const RIGHT: [Pos2; 3] = [ORIGIN, Pos2 { x: 10.0, y: 0.0 }, Pos2 { x: 10.0, y: 10.0 }];

    const SHARP: [Pos2; 3] = [ORIGIN, Pos2 { x: 10.0, y: 0.0 }, Pos2 { x: 0.0, y: 1.0 }];

    // The number of the refusal of a line in memory for three points, or 0.
    fn refusal_in_three(places: &[Pos2]) -> u8 {
        let mut points = [NO_POINT; 3];
        let mut path = Path::new(&mut points);
        match path.add_open_points(places) {
            Ok(()) => 0,
            Err(fault) => fault.number(),
        }
    }

    // The points of a circle in memory for so many, at most 129, or the number of the refusal.
    fn circle_in(memory: usize, radius: f32) -> Result<usize, u8> {
        let mut points = [NO_POINT; 129];
        let mut path = Path::new(&mut points[0..memory.min(129)]);
        match path.add_circle(ORIGIN, radius) {
            Ok(()) => Ok(path.as_slice().len()),
            Err(fault) => Err(fault.number()),
        }
    }

    // The points of a loop of the first so many places in memory for so many, at most 3 of each, or the number of the refusal.
    fn loop_in(memory: usize, places: usize) -> Result<usize, u8> {
        let mut points = [NO_POINT; 3];
        let mut path = Path::new(&mut points[0..memory.min(3)]);
        match path.add_line_loop(&SHARP[0..places.min(3)]) {
            Ok(()) => Ok(path.as_slice().len()),
            Err(fault) => Err(fault.number()),
        }
    }

    // The places of a quadrant in memory for three, or the number of the refusal.
    fn quadrant_in_three(radius: f32, quadrant: u8) -> Result<usize, u8> {
        let mut memory = [ORIGIN; 3];
        let mut places = Places::new(&mut memory);
        match places.add_circle_quadrant(ORIGIN, radius, quadrant) {
            Ok(()) => Ok(places.as_slice().len()),
            Err(fault) => Err(fault.number()),
        }
    }

    // The places of a rectangle of 4 by 4 in a list with one place and memory for so many, at most 9:
    // how many there are then, and the number of the refusal or 0.
    fn rounded_in(memory: usize, radius: f32) -> (usize, u8) {
        let mut items = [ORIGIN; 9];
        let mut places = Places::new(&mut items[0..memory.min(9)]);
        let _ = places.add_circle_quadrant(ORIGIN, 0.0, 0);
        let rect = Rect {
            min: ORIGIN,
            max: Pos2 { x: 4.0, y: 4.0 },
        };
        let radii = CornerRadiusF32 {
            nw: radius,
            ne: radius,
            sw: radius,
            se: radius,
        };
        match places.rounded_rectangle(rect, radii) {
            Ok(()) => (places.as_slice().len(), 0),
            Err(fault) => (places.as_slice().len(), fault.number()),
        }
    }

    // The vertices of a line of two points, feathering 1.
    fn vertices_of_width(width: f32) -> usize {
        let mut points = [NO_POINT; 2];
        let mut path = Path::new(&mut points);
        let _ = path.add_line_segment(ORIGIN, Pos2 { x: 10.0, y: 0.0 });
        let color = Solid {
            color: Color32 {
                r: 1,
                g: 2,
                b: 3,
                a: 4,
            },
        };
        match size_of_stroke_open(
            &path,
            1.0,
            &PathStroke {
                width,
                color,
                kind: StrokeKind::Middle,
            },
        ) {
            Ok(size) => size.vertices,
            Err(_) => 0,
        }
    }

    #[test]
    fn constants(rt: HostRuntime) {
        assert!(rt; TextureId::DEFAULT.is_default());
        assert!(rt; Color32::TRANSPARENT.is_transparent());
        assert!(rt; Vec2::ZERO.x == 0.0);
        assert!(rt; Vec2::ZERO.y == 0.0);
    }

    #[test]
    fn lines_in_full_memory(rt: HostRuntime) {
        assert_eq!(rt; refusal_in_three(&RIGHT), 0);
        assert_eq!(rt;
            refusal_in_three(&SHARP),
            3,
            "a cut corner takes two points"
        );
        assert_eq!(rt; refusal_in_three(&[ORIGIN]), 1);
        assert_eq!(rt;
            refusal_in_three(&[Pos2 {
                x: 1048577.0,
                y: 0.0,
            }],),
            2
        );
    }

    #[test]
    fn circles_at_the_cutoffs(rt: HostRuntime) {
        assert_eq!(rt; circle_in(129, 0.0), Ok(9));
        assert_eq!(rt; circle_in(129, 2.0), Ok(9));
        assert_eq!(rt; circle_in(129, 2.0000002), Ok(17));
        assert_eq!(rt; circle_in(129, 5.0), Ok(17));
        assert_eq!(rt; circle_in(129, 5.0000005), Ok(33));
        assert_eq!(rt; circle_in(129, 17.999998), Ok(33));
        assert_eq!(rt; circle_in(129, 18.0), Ok(65));
        assert_eq!(rt; circle_in(129, 49.999996), Ok(65));
        assert_eq!(rt; circle_in(129, 50.0), Ok(129));
        assert_eq!(rt; circle_in(129, 65536.0), Ok(129));
    }

    #[test]
    fn circles_refused(rt: HostRuntime) {
        assert_eq!(rt; circle_in(129, 65536.008), Err(2));
        assert_eq!(rt; circle_in(129, -1.0), Err(2));
        assert_eq!(rt; circle_in(9, -0.0), Ok(9), "-0 is 0");
        assert_eq!(rt; circle_in(8, 2.0), Err(3), "one point short");
        assert_eq!(rt; circle_in(8, f32::INFINITY), Err(2), "2 before 3");
    }

    #[test]
    fn loops_in_full_memory(rt: HostRuntime) {
        assert_eq!(rt; loop_in(3, 0), Err(1));
        assert_eq!(rt; loop_in(0, 1), Err(1), "1 before 3");
        assert_eq!(rt; loop_in(2, 2), Ok(2));
        assert_eq!(rt; loop_in(1, 2), Err(3));
        assert_eq!(rt; loop_in(3, 3), Ok(3), "no corner is cut off");
        assert_eq!(rt; loop_in(2, 3), Err(3));
    }

    #[test]
    fn quadrants(rt: HostRuntime) {
        assert_eq!(rt; quadrant_in_three(0.0, 3), Ok(1));
        assert_eq!(rt; quadrant_in_three(2.0, 3), Ok(3));
        assert_eq!(rt; quadrant_in_three(2.0000002, 3), Err(3));
        assert_eq!(rt; quadrant_in_three(0.0, 4), Err(2), "at radius 0 too");
    }

    #[test]
    fn rounded_rectangles(rt: HostRuntime) {
        assert_eq!(rt; rounded_in(8, 9.0), (8, 0), "four places are dropped");
        assert_eq!(rt; rounded_in(7, 9.0), (1, 3), "the list stays");
        assert_eq!(rt; rounded_in(4, 0.0), (4, 0));
        assert_eq!(rt; rounded_in(3, 0.0), (1, 3));
        assert_eq!(rt; rounded_in(3, 65536.008), (1, 2), "2 before 3");
    }

    #[test]
    fn thin_and_thick(rt: HostRuntime) {
        assert_eq!(rt; vertices_of_width(0.9), 6);
        assert_eq!(rt; vertices_of_width(0.90000004), 8);
        assert_eq!(rt; vertices_of_width(0.0), 0);
        assert_eq!(rt; vertices_of_width(65537.0), 0);
    }

    #[test]
    fn an_empty_mesh_is_one_part(rt: HostRuntime) {
        let texture_id = TextureId::User(7);
        let mesh = Mesh::with_texture(texture_id, &mut [], &mut []).finish();
        let part = Part {
            first_vertex: 1,
            vertex_count: 1,
            first_index: 1,
            index_count: 1,
            texture_id,
        };
        let mut parts = [part; 1];
        assert_eq!(rt; split_to_u16(&mesh, &mut [], &mut parts).is_ok(), true);
        assert_eq!(rt; parts[0].vertex_count, 0);
        assert_eq!(rt; split_to_u16(&mesh, &mut [], &mut []).is_err(), true);
        assert_eq!(rt; part.vertices(&mesh).is_none(), true);
    }
}
