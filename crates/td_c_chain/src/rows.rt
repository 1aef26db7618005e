//! Pieces and loads as rows that C has room for.

ghost use Rattle.std.specs.Prelude.{◌≡◌};
ghost use Rattle.td_c_chain.specs.Told.{AreRows, load_told, piece_told};

use td_chain::Piece;
use td_foreign::TdLoad;
use td_stream::load::Load;

/// A piece, as C sees it: `is_writable` is 1 if the device writes it, else 0.
#[repr(C)]
#[derive(Clone, Copy)]
pub struct TdChainPiece {
    pub place: u64,
    pub size: u32,
    pub is_writable: u32,
}

// The row of a piece.
fn piece_row(piece: Piece) -> TdChainPiece
    ensures { result ≡ piece_told piece }
{
    TdChainPiece {
        place: piece.place,
        size: piece.size,
        is_writable: if piece.is_writable { 1 } else { 0 },
    }
}

// The row of a load.
fn load_row(load: Load) -> TdLoad
    ensures { result ≡ load_told load }
{
    TdLoad {
        stretch: 0,
        word: load.word,
        value: load.value,
    }
}

/// Writes rows for pieces, as far as there is room for them.
pub(crate) fn put_pieces(pieces: &[Piece], rows: &mut [TdChainPiece])
    ensures { AreRows piece_told pieces.now rows.old rows.new }
{
    for i in 0..pieces.len().min(rows.len()) {
        rows[i] = piece_row(pieces[i]);
    }
}

/// Writes rows for loads, as far as there is room for them.
pub(crate) fn put_loads(loads: &[Load], rows: &mut [TdLoad])
    ensures { AreRows load_told loads.now rows.old rows.new }
{
    for i in 0..loads.len().min(rows.len()) {
        rows[i] = load_row(loads[i]);
    }
}
