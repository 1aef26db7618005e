//! Windows and loops that are open.

/// A window or loop that is open, by the place of the instruction that opens it; a window with the least bytes that it
/// has taken where it is closed.
#[derive(Clone, Copy)]
pub enum Bracket {
    Window { at: usize, bytes: u64 },
    Loop { at: usize },
}

/// The innermost window or loop that is open at a place.
#[derive(Clone, Copy)]
pub enum Innermost {
    Outside,
    Within(Bracket),
    /// Something was closed before that wasn't the innermost.
    Broken,
}
