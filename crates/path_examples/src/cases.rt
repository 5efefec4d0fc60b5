//! What the paths and the lists of places are built of.
use emath::plane::Pos2;

/// An open line or a loop.
#[derive(Clone, Copy)]
pub struct Line {
    pub name: &'static str,
    pub places: &'static [Pos2],
}

/// A rounded rectangle: least x and y, greatest x and y, and the radii nw, ne, sw and se. Rows of numbers, since boxes and
/// radii with their names would take twelve lines for each.
#[derive(Clone, Copy)]
pub struct Rounded {
    pub name: &'static str,
    pub sides: [f32; 4],
    pub radii: [f32; 4],
}

pub const CENTER: Pos2 = Pos2 { x: 3.5, y: -2.25 };

/// Circles of which all points are printed.
pub const WHOLE_CIRCLES: [f32; 4] = [2.0, 2.0000002, 5.0000005, 50.0];

/// Circles of which a few points are printed.
pub const OTHER_CIRCLES: [f32; 7] = [0.0, 1.0, 5.0, 17.999998, 18.0, 49.999996, 65_536.0];

/// Quadrants of which all places are printed.
pub const SMALL_QUADRANTS: [f32; 3] = [0.0, 1.5, 3.0];

/// Quadrants of which a few places are printed.
pub const LARGE_QUADRANTS: [f32; 3] = [10.0, 30.0, 100.0];

/// Quadrants on both sides of where the number of steps changes, of which the places are counted.
pub const COUNTED_QUADRANTS: [f32; 9] = [
    2.0, 2.0000002, 5.0, 5.0000005, 17.999998, 18.0, 49.999996, 50.0, 65_536.0,
];

/// Some are of no length, or so short that the square of their length is 0 or has few bits.
pub const SEGMENTS: [[Pos2; 2]; 7] = [
    [Pos2 { x: 0.0, y: 0.0 }, Pos2 { x: 3.0, y: 4.0 }],
    [Pos2 { x: 10.0, y: -7.0 }, Pos2 { x: -2.5, y: 1.3 }],
    [Pos2 { x: 6.0, y: 6.0 }, Pos2 { x: 6.0, y: 6.0 }],
    [Pos2 { x: 0.0, y: 0.0 }, Pos2 { x: 1e-30, y: 2e-30 }],
    [Pos2 { x: 0.0, y: 0.0 }, Pos2 { x: 1e-20, y: 2e-20 }],
    [
        Pos2 {
            x: -1_048_576.0,
            y: -1_048_576.0,
        },
        Pos2 {
            x: 1_048_576.0,
            y: 1_048_576.0,
        },
    ],
    [
        Pos2 {
            x: 1_000_000.0,
            y: 1.0,
        },
        Pos2 {
            x: 1_000_000.06,
            y: 1.0,
        },
    ],
];

pub const RIGHT_ANGLE: [Pos2; 3] = [
    Pos2 { x: 0.0, y: 0.0 },
    Pos2 { x: 10.0, y: 0.0 },
    Pos2 { x: 10.0, y: 10.0 },
];

/// Open lines.
pub const LINES: [Line; 21] = [
    Line {
        name: "right angle",
        places: &RIGHT_ANGLE,
    },
    Line {
        name: "two places",
        places: &[Pos2 { x: 1.0, y: 2.0 }, Pos2 { x: 4.0, y: -2.0 }],
    },
    Line {
        name: "straight on",
        places: &[
            Pos2 { x: 0.0, y: 0.0 },
            Pos2 { x: 3.0, y: 4.0 },
            Pos2 { x: 6.0, y: 8.0 },
        ],
    },
    Line {
        name: "gentle",
        places: &[
            Pos2 { x: 0.0, y: 0.0 },
            Pos2 { x: 10.0, y: 1.0 },
            Pos2 { x: 20.0, y: -1.5 },
            Pos2 { x: 30.5, y: 4.0 },
        ],
    },
    Line {
        name: "just wider than a right angle",
        places: &[
            Pos2 { x: 0.0, y: 0.0 },
            Pos2 { x: 10.0, y: 0.0 },
            Pos2 { x: 10.01, y: 10.0 },
        ],
    },
    Line {
        name: "just sharper than a right angle",
        places: &[
            Pos2 { x: 0.0, y: 0.0 },
            Pos2 { x: 10.0, y: 0.0 },
            Pos2 { x: 9.99, y: 10.0 },
        ],
    },
    Line {
        name: "sharp corner",
        places: &[
            Pos2 { x: 0.0, y: 0.0 },
            Pos2 { x: 10.0, y: 0.0 },
            Pos2 { x: 0.0, y: 1.0 },
        ],
    },
    Line {
        name: "straight back",
        places: &[
            Pos2 { x: 0.0, y: 0.0 },
            Pos2 { x: 10.0, y: 0.0 },
            Pos2 { x: 0.0, y: 0.0 },
        ],
    },
    Line {
        name: "nearly straight back",
        places: &[
            Pos2 { x: 0.0, y: 0.0 },
            Pos2 { x: 1000.0, y: 0.0 },
            Pos2 { x: 0.0, y: 0.0001 },
        ],
    },
    Line {
        name: "zigzag",
        places: &[
            Pos2 { x: 0.0, y: 0.0 },
            Pos2 { x: 3.0, y: 7.0 },
            Pos2 { x: 6.5, y: -1.0 },
            Pos2 { x: 8.0, y: 2.25 },
            Pos2 { x: 20.0, y: 2.5 },
            Pos2 { x: 19.0, y: 2.75 },
            Pos2 { x: -4.0, y: 3.0 },
        ],
    },
    Line {
        name: "doubled start",
        places: &[
            Pos2 { x: 0.0, y: 0.0 },
            Pos2 { x: 0.0, y: 0.0 },
            Pos2 { x: 10.0, y: 0.0 },
            Pos2 { x: 10.0, y: 10.0 },
        ],
    },
    Line {
        name: "doubled middle",
        places: &[
            Pos2 { x: 0.0, y: 0.0 },
            Pos2 { x: 10.0, y: 0.0 },
            Pos2 { x: 10.0, y: 0.0 },
            Pos2 { x: 3.0, y: 9.0 },
        ],
    },
    Line {
        name: "doubled end",
        places: &[
            Pos2 { x: 0.0, y: 0.0 },
            Pos2 { x: 10.0, y: 0.0 },
            Pos2 { x: 3.0, y: 9.0 },
            Pos2 { x: 3.0, y: 9.0 },
        ],
    },
    Line {
        name: "three equal at the start",
        places: &[
            Pos2 { x: 1.0, y: 1.0 },
            Pos2 { x: 1.0, y: 1.0 },
            Pos2 { x: 1.0, y: 1.0 },
            Pos2 { x: 10.0, y: 0.0 },
            Pos2 { x: 10.0, y: 10.0 },
        ],
    },
    Line {
        name: "three equal in the middle",
        places: &[
            Pos2 { x: 0.0, y: 0.0 },
            Pos2 { x: 10.0, y: 1.0 },
            Pos2 { x: 10.0, y: 1.0 },
            Pos2 { x: 10.0, y: 1.0 },
            Pos2 { x: 10.0, y: 10.0 },
        ],
    },
    Line {
        name: "three equal at the end",
        places: &[
            Pos2 { x: 0.0, y: 0.0 },
            Pos2 { x: 10.0, y: 1.0 },
            Pos2 { x: 9.0, y: 9.0 },
            Pos2 { x: 9.0, y: 9.0 },
            Pos2 { x: 9.0, y: 9.0 },
        ],
    },
    Line {
        name: "all equal",
        places: &[
            Pos2 { x: 2.0, y: 3.0 },
            Pos2 { x: 2.0, y: 3.0 },
            Pos2 { x: 2.0, y: 3.0 },
            Pos2 { x: 2.0, y: 3.0 },
        ],
    },
    Line {
        name: "huge",
        places: &[
            Pos2 {
                x: -1_048_576.0,
                y: -1_048_576.0,
            },
            Pos2 {
                x: 1_048_576.0,
                y: 1_048_576.0,
            },
            Pos2 {
                x: 1_048_576.0,
                y: -1_048_576.0,
            },
            Pos2 {
                x: -1_048_576.0,
                y: 0.5,
            },
        ],
    },
    Line {
        name: "far out",
        places: &[
            Pos2 {
                x: 1_048_575.875,
                y: 1_048_575.75,
            },
            Pos2 {
                x: 1_048_576.0,
                y: 1_048_575.75,
            },
            Pos2 {
                x: 1_048_576.0,
                y: 1_048_576.0,
            },
        ],
    },
    Line {
        name: "steps with squares of few bits",
        places: &[
            Pos2 { x: 0.0, y: 0.0 },
            Pos2 { x: 1e-20, y: 2e-20 },
            Pos2 { x: 3e-20, y: 1e-20 },
        ],
    },
    Line {
        name: "steps with squares of zero",
        places: &[
            Pos2 { x: 0.0, y: 0.0 },
            Pos2 { x: 1e-30, y: 0.0 },
            Pos2 { x: 1e-30, y: 1e-30 },
        ],
    },
];

/// Loops.
pub const LOOPS: [Line; 15] = [
    Line {
        name: "square",
        places: &[
            Pos2 { x: 0.0, y: 0.0 },
            Pos2 { x: 10.0, y: 0.0 },
            Pos2 { x: 10.0, y: 10.0 },
            Pos2 { x: 0.0, y: 10.0 },
        ],
    },
    Line {
        name: "square the other way",
        places: &[
            Pos2 { x: 0.0, y: 0.0 },
            Pos2 { x: 0.0, y: 10.0 },
            Pos2 { x: 10.0, y: 10.0 },
            Pos2 { x: 10.0, y: 0.0 },
        ],
    },
    Line {
        name: "two places",
        places: &[Pos2 { x: 0.0, y: 0.0 }, Pos2 { x: 10.0, y: 5.0 }],
    },
    Line {
        name: "triangle",
        places: &[
            Pos2 { x: 0.0, y: 0.0 },
            Pos2 { x: 12.0, y: 5.0 },
            Pos2 { x: 3.0, y: 9.0 },
        ],
    },
    Line {
        name: "thorn",
        places: &[
            Pos2 { x: 0.0, y: 0.0 },
            Pos2 { x: 10.0, y: 0.25 },
            Pos2 { x: 0.0, y: 0.5 },
        ],
    },
    Line {
        name: "star",
        places: &[
            Pos2 { x: 0.0, y: -10.0 },
            Pos2 { x: 2.0, y: -2.0 },
            Pos2 { x: 10.0, y: 0.0 },
            Pos2 { x: 1.5, y: 2.5 },
            Pos2 { x: 0.0, y: 10.0 },
            Pos2 { x: -3.0, y: 0.5 },
        ],
    },
    Line {
        name: "doubled start",
        places: &[
            Pos2 { x: 0.0, y: 0.0 },
            Pos2 { x: 0.0, y: 0.0 },
            Pos2 { x: 12.0, y: 5.0 },
            Pos2 { x: 3.0, y: 9.0 },
        ],
    },
    Line {
        name: "doubled middle",
        places: &[
            Pos2 { x: 0.0, y: 0.0 },
            Pos2 { x: 12.0, y: 5.0 },
            Pos2 { x: 12.0, y: 5.0 },
            Pos2 { x: 3.0, y: 9.0 },
        ],
    },
    Line {
        name: "doubled end",
        places: &[
            Pos2 { x: 0.0, y: 0.0 },
            Pos2 { x: 12.0, y: 5.0 },
            Pos2 { x: 3.0, y: 9.0 },
            Pos2 { x: 3.0, y: 9.0 },
        ],
    },
    Line {
        name: "first repeated last",
        places: &[
            Pos2 { x: 0.0, y: 0.0 },
            Pos2 { x: 12.0, y: 5.0 },
            Pos2 { x: 3.0, y: 9.0 },
            Pos2 { x: 0.0, y: 0.0 },
        ],
    },
    Line {
        name: "three equal",
        places: &[
            Pos2 { x: 1.0, y: 1.0 },
            Pos2 { x: 1.0, y: 1.0 },
            Pos2 { x: 1.0, y: 1.0 },
            Pos2 { x: 12.0, y: 5.0 },
            Pos2 { x: 3.0, y: 9.0 },
        ],
    },
    Line {
        name: "all equal",
        places: &[
            Pos2 { x: 2.0, y: 3.0 },
            Pos2 { x: 2.0, y: 3.0 },
            Pos2 { x: 2.0, y: 3.0 },
        ],
    },
    Line {
        name: "straight back",
        places: &[
            Pos2 { x: 0.0, y: 0.0 },
            Pos2 { x: 10.0, y: 0.0 },
            Pos2 { x: 20.0, y: 0.0 },
            Pos2 { x: 10.0, y: 0.0 },
        ],
    },
    Line {
        name: "huge",
        places: &[
            Pos2 {
                x: -1_048_576.0,
                y: -1_048_576.0,
            },
            Pos2 {
                x: 1_048_576.0,
                y: -1_048_576.0,
            },
            Pos2 {
                x: 1_048_576.0,
                y: 1_048_576.0,
            },
        ],
    },
    Line {
        name: "steps with squares of zero",
        places: &[
            Pos2 { x: 0.0, y: 0.0 },
            Pos2 { x: 1e-30, y: 0.0 },
            Pos2 { x: 0.0, y: 1e-30 },
        ],
    },
];

/// Rounded rectangles of which all places are printed.
pub const ROUNDED: [Rounded; 15] = [
    Rounded {
        name: "without radii",
        sides: [1.0, 2.0, 11.0, 8.0],
        radii: [0.0; 4],
    },
    Rounded {
        name: "north west alone",
        sides: [1.0, 2.0, 11.0, 8.0],
        radii: [1.5, 0.0, 0.0, 0.0],
    },
    Rounded {
        name: "all different",
        sides: [0.0, 0.0, 40.0, 30.0],
        radii: [1.0, 2.5, 4.0, 6.0],
    },
    Rounded {
        name: "4 by 4 with radii of 9",
        sides: [0.0, 0.0, 4.0, 4.0],
        radii: [9.0; 4],
    },
    Rounded {
        name: "meeting in the south",
        sides: [0.0, 0.0, 4.0, 10.0],
        radii: [0.0, 0.5, 2.0, 2.0],
    },
    Rounded {
        name: "meeting in the west",
        sides: [0.0, 0.0, 10.0, 4.0],
        radii: [2.0, 0.0, 2.0, 0.5],
    },
    Rounded {
        name: "meeting in the north",
        sides: [0.0, 0.0, 4.0, 10.0],
        radii: [2.0, 2.0, 0.5, 0.0],
    },
    Rounded {
        name: "meeting in the east",
        sides: [0.0, 0.0, 10.0, 4.0],
        radii: [0.5, 2.0, 0.0, 2.0],
    },
    Rounded {
        name: "meeting but for a rounding",
        sides: [0.0, 0.0, 4.0, 10.0],
        radii: [0.0, 0.0, 2.0, 1.999999],
    },
    Rounded {
        name: "not quite meeting",
        sides: [0.0, 0.0, 4.0, 10.0],
        radii: [0.0, 0.0, 2.0, 1.99999],
    },
    Rounded {
        name: "narrow",
        sides: [0.0, -1_048_576.0, 0.1, 1_048_576.0],
        radii: [0.05, 0.0, 0.0, 0.0],
    },
    Rounded {
        name: "no width",
        sides: [5.0, 0.0, 5.0, 10.0],
        radii: [2.0; 4],
    },
    Rounded {
        name: "least above greatest",
        sides: [11.0, 8.0, 1.0, 2.0],
        radii: [1.5; 4],
    },
    Rounded {
        name: "least x above greatest",
        sides: [11.0, 2.0, 1.0, 8.0],
        radii: [1.5; 4],
    },
    Rounded {
        name: "tiny",
        sides: [0.0, 0.0, 1e-30, 1e-30],
        radii: [1.0; 4],
    },
];

/// Rounded rectangles of which a few places are printed.
pub const LARGE_ROUNDED: [Rounded; 2] = [
    Rounded {
        name: "radii clamped to half the height",
        sides: [0.0, 0.0, 100.0, 60.0],
        radii: [65_536.0; 4],
    },
    Rounded {
        name: "huge",
        sides: [-1_048_576.0, -1_048_576.0, 1_048_576.0, 1_048_576.0],
        radii: [65_536.0; 4],
    },
];
