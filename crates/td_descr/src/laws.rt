//! Laws of rings. They do nothing when they are called.

ghost use Rattle.td_descr.specs.Laws.{IsWorkedRing, DescriptorsLieWithin};
ghost use Rattle.td_descr.specs.Shape.{ShapeAcceptsWithin, ShapeFits, ShapeHasNoBuffers};

/// The worked ring.
pub fn worked_ring()
    ensures { IsWorkedRing }
{}

/// A descriptor that is accepted lies within the room, and its message has no more bytes than one may have.
pub fn descriptors_lie_within()
    ensures { DescriptorsLieWithin }
{}

/// So it is for each module of the shape of that of descriptors.
pub fn shape_lies_within()
    ensures { ShapeAcceptsWithin }
{}

/// Room and greatest size of 32 bits fit the entry point of such a module, and so do cells of zeros.
pub fn shape_fits()
    ensures { ShapeFits }
{}

/// The entry point of such a module has no copy buffers.
pub fn shape_has_no_buffers()
    ensures { ShapeHasNoBuffers }
{}
