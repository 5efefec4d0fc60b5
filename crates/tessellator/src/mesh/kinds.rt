//! The triangles of each kind of figure.
ghost use Rattle.std.specs.Prelude.{◌≡◌};
ghost use Rattle.tessellator.specs.Kinds.{triangles};
ghost use Rattle.tessellator.specs.Outcome.{TrianglesFit};
ghost use Rattle.tessellator.specs.State.{mesh_state, with_triangles};
ghost use Rattle.tessellator.specs.declared.kind.Kind.TheVariants.{FeatheredFill, Line, Loop, Filled};
ghost use Rattle.tessellator.specs.declared.stroke.Style.TheVariants.{Hard, Thick};

use super::Mesh;
use super::joint::Joint;
use super::vertices::Vertices;
use crate::kind::Kind;
use crate::stroke::Style;

impl<'a> Mesh<'a> {
    pub(crate) fn add_triangles(&mut self, own: Vertices, kind: Kind)
        requires { TrianglesFit kind own.base own.points (mesh_state self.old) }
        ensures { mesh_state self.new ≡ with_triangles own.base (mesh_state self.old) (triangles kind own.points) }
    {
        match kind {
            Kind::Nothing => {}
            Kind::HardFill => self.add_polygon(own),
            Kind::FeatheredFill => self.add_feathered(own),
            Kind::Line(style) => self.add_line(own, style),
            Kind::Loop(style) => self.add_loop(own, style),
            Kind::Filled(style) => self.add_filled(own, style),
        }
    }

    fn add_feathered(&mut self, own: Vertices)
        requires { TrianglesFit FeatheredFill own.base own.points (mesh_state self.old) }
        ensures { mesh_state self.new ≡ with_triangles own.base (mesh_state self.old) (triangles FeatheredFill own.points) }
    {
        self.add_fan(own, 2, 0);
        self.add_closed(own, Joint::Skirt);
    }

    fn add_line(&mut self, own: Vertices, style: Style)
        requires { TrianglesFit (Line style) own.base own.points (mesh_state self.old) }
        ensures { mesh_state self.new ≡ with_triangles own.base (mesh_state self.old) (triangles (Line style) own.points) }
    {
        match style {
            Style::Hard => self.add_joints(own, Joint::Plank),
            Style::Thin => self.add_joints(own, Joint::Rows(3)),
            Style::Thick => self.add_capped(own),
        }
    }

    /// A thick line, with two triangles at each end.
    fn add_capped(&mut self, own: Vertices)
        requires { TrianglesFit (Line Thick) own.base own.points (mesh_state self.old) }
        ensures { mesh_state self.new ≡ with_triangles own.base (mesh_state self.old) (triangles (Line Thick) own.points) }
    {
        self.add_cap(own.base, 0);
        self.add_joints(own, Joint::Rows(4));
        self.add_cap(own.base, own.points - 1);
    }

    fn add_loop(&mut self, own: Vertices, style: Style)
        requires { TrianglesFit (Loop style) own.base own.points (mesh_state self.old) }
        ensures { mesh_state self.new ≡ with_triangles own.base (mesh_state self.old) (triangles (Loop style) own.points) }
    {
        match style {
            Style::Hard => self.add_hard_loop(own),
            Style::Thin => self.add_closed(own, Joint::Rows(3)),
            Style::Thick => self.add_closed(own, Joint::Rows(4)),
        }
    }

    fn add_hard_loop(&mut self, own: Vertices)
        requires { TrianglesFit (Loop Hard) own.base own.points (mesh_state self.old) }
        ensures { mesh_state self.new ≡ with_triangles own.base (mesh_state self.old) (triangles (Loop Hard) own.points) }
    {
        self.add_joints(own, Joint::Plank);
        self.add_plank(own.base, own.points - 1, 0);
    }

    /// A loop, and the fill within its last row. That of a hard loop has vertices of its own.
    fn add_filled(&mut self, own: Vertices, style: Style)
        requires { TrianglesFit (Filled style) own.base own.points (mesh_state self.old) }
        ensures { mesh_state self.new ≡ with_triangles own.base (mesh_state self.old) (triangles (Filled style) own.points) }
    {
        self.add_loop(own, style);
        match style {
            Style::Hard => self.add_polygon(Vertices {
                base: own.base + 2 * own.points,
                points: own.points,
            }),
            Style::Thin => self.add_fan(own, 3, 2),
            Style::Thick => self.add_fan(own, 4, 3),
        }
    }
}
