//! Triangles among the vertices of a figure, whose first is the mesh's vertex `base`. The loops count points and rows.
ghost use Rattle.std.specs.Prelude.{◌≡◌, ◌+◌, ◌-◌, ◌*◌, ◌<◌, ◌≤◌, length};
ghost use Rattle.tessellator.specs.Joints.{JointFits, JointsFit, closed, joint, joints};
ghost use Rattle.tessellator.specs.Kinds.{band, cap, fan, plank, polygon, skirt};
ghost use Rattle.tessellator.specs.State.{mesh_state, with_triangles, index_room};
ghost use Rattle.tessellator.specs.declared.mesh.joint.Joint.TheVariants.{Plank, Rows, Skirt};

use super::Mesh;
use super::joint::Joint;
use super::vertices::Vertices;

impl<'a> Mesh<'a> {
    /// The triangles between the points i and j.
    fn add_joint(&mut self, base: u32, kind: Joint, i: u32, j: u32)
        requires { JointFits kind base i j (mesh_state self.old) }
        ensures { mesh_state self.new ≡ with_triangles base (mesh_state self.old) (joint kind i j) }
    {
        match kind {
            Joint::Skirt => self.add_skirt(base, i, j),
            Joint::Plank => self.add_plank(base, i, j),
            Joint::Rows(rows) => self.add_band(base, rows, i, j),
        }
    }

    /// From each of the first points to the next.
    pub(super) fn add_joints(&mut self, own: Vertices, kind: Joint)
        requires { JointsFit kind own.base own.points (own.points - 1) (mesh_state self.old) }
        ensures { mesh_state self.new ≡ with_triangles own.base (mesh_state self.old) (joints kind own.points) }
    {
        for i in 0..own.points - 1 {
            self.add_joint(own.base, kind, i, i + 1);
        }
    }

    /// The same, after the joint from the last point to the first.
    pub(super) fn add_closed(&mut self, own: Vertices, kind: Joint)
        requires { JointsFit kind own.base own.points own.points (mesh_state self.old) }
        ensures { mesh_state self.new ≡ with_triangles own.base (mesh_state self.old) (closed kind own.points) }
    {
        self.add_joint(own.base, kind, own.points - 1, 0);
        self.add_joints(own, kind);
    }

    /// Between two points of a feathered fill.
    fn add_skirt(&mut self, base: u32, i: u32, j: u32)
        requires { JointFits Skirt base i j (mesh_state self.old) }
        ensures { mesh_state self.new ≡ with_triangles base (mesh_state self.old) (skirt i j) }
    {
        self.push_pair(
            base,
            [2 * j, 2 * i, 2 * i + 1],
            [2 * i + 1, 2 * j + 1, 2 * j],
        );
    }

    /// Between two points of a hard line.
    pub(super) fn add_plank(&mut self, base: u32, i: u32, j: u32)
        requires { JointFits Plank base i j (mesh_state self.old) }
        ensures { mesh_state self.new ≡ with_triangles base (mesh_state self.old) (plank i j) }
    {
        self.push_pair(
            base,
            [2 * i, 2 * i + 1, 2 * j],
            [2 * j, 2 * i + 1, 2 * j + 1],
        );
    }

    /// Between all rows of two points.
    fn add_band(&mut self, base: u32, rows: u32, i: u32, j: u32)
        requires { JointFits (Rows rows) base i j (mesh_state self.old) }
        ensures { mesh_state self.new ≡ with_triangles base (mesh_state self.old) (band rows i j) }
    {
        let from = rows * i;
        let to = rows * j;
        for r in 0..rows - 1 {
            self.push_pair(
                base,
                [from + r, from + (r + 1), to + r],
                [from + (r + 1), to + r, to + (r + 1)],
            );
        }
    }

    /// The end of a thick line at the point i.
    pub(super) fn add_cap(&mut self, base: u32, i: u32)
        requires vertices { base + 4 * i + 4 ≤ length (mesh_state self.old).vertices }
        requires space { 6 ≤ index_room (mesh_state self.old) }
        ensures { mesh_state self.new ≡ with_triangles base (mesh_state self.old) (cap i) }
    {
        let from = 4 * i;
        self.push_pair(base, [from, from + 1, from + 2], [from, from + 2, from + 3]);
    }

    /// The points' vertices in one row, as a polygon.
    pub(super) fn add_fan(&mut self, own: Vertices, rows: u32, row: u32)
        requires enough { 2 ≤ own.points }
        requires row_exists { row < rows }
        requires vertices { own.base + rows * own.points ≤ length (mesh_state self.old).vertices }
        requires space { 3 * (own.points - 2) ≤ index_room (mesh_state self.old) }
        ensures { mesh_state self.new ≡ with_triangles own.base (mesh_state self.old) (fan rows row own.points) }
    {
        for i in 0..own.points - 2 {
            self.push_triangle(own.base, rows * (i + 1) + row, row, rows * (i + 2) + row);
        }
    }

    /// All vertices of a hard fill, as a polygon.
    pub(super) fn add_polygon(&mut self, own: Vertices)
        requires enough { 2 ≤ own.points }
        requires vertices { own.base + own.points ≤ length (mesh_state self.old).vertices }
        requires space { 3 * (own.points - 2) ≤ index_room (mesh_state self.old) }
        ensures { mesh_state self.new ≡ with_triangles own.base (mesh_state self.old) (polygon own.points) }
    {
        for i in 0..own.points - 2 {
            self.push_triangle(own.base, 0, i + 1, i + 2);
        }
    }
}
