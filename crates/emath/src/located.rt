//! What lies at a place.
ghost use Rattle.std.specs.Prelude.{◌≡◌};
ghost use Rattle.emath.specs.declared.plane.Pos2.{Pos2};

use crate::plane::Pos2;

/// Something at a place.
pub trait Located {
    ghost place: { Self → Pos2 };

    fn pos(&self) -> Pos2
        ensures { result ≡ place self.now };
}

impl Located for Pos2 {
    ghost place = { λ p. p };

    fn pos(&self) -> Pos2 {
        *self
    }
}
