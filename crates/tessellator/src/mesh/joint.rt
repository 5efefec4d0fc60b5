//! What joins two points of a figure.

/// The two triangles of a feathered fill's edge, those of a hard line, or those between so many rows.
/// An enum, and no closure: the space and the vertices that each takes are told by its case.
#[derive(Clone, Copy)]
pub(crate) enum Joint {
    Skirt,
    Plank,
    Rows(u32),
}
