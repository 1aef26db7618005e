//! A validation that C asks for, and its answer.

ghost use Rattle.std.specs.Prelude.{◌≡◌, ◌≤◌, ◌↔◌, [], Some, IsTrue, IsNone, take, drop, length as size_of};
ghost use Rattle.std.specs.Arc.{arc_value};
ghost use Rattle.td_stream.specs.Layouts.{AreWithin, count_in};
ghost use Rattle.td_stream.specs.Loads.{buffered};
ghost use Rattle.td_foreign.specs.Pieces.{AreFresh, AreWhole, HasLoads, layout_of};
ghost use Rattle.td_c.specs.Asked.{HasAnswered, IsRunOfCall, SameQuestion, entry_asked, args_of, cells_of};
ghost use Rattle.td_c.specs.Numbers.{position_told, reason_told};

use crate::answers::{Answer, Refusal, reason_of};
use td_core::module::Entry;
use td_core::outcome::Verdict;
use td_foreign::{ForeignWords, NotedWords, PieceWords, TdLoad, TdPiece, TdWords};
use td_session::session::Session;
use td_stream::layout::Layout;
use td_stream::made::Made;
use td_stream::words::Words;

/// What is asked, and what is answered.
#[repr(C)]
pub struct TdCall {
    /// The entry point's number.
    pub entry: u32,
    /// The byte of the words at which the message begins, and how many bytes it has.
    pub place: u32,
    pub length: u32,
    pub arg_count: u32,
    pub cell_count: u32,
    /// The position of the verdict, and the reason of a rejection (6: it accepts).
    pub position: u32,
    pub reason: u32,
    pub unused: u32,
    /// How many frames the failure has.
    pub frame_count: u64,
    /// How many loads were made.
    pub load_count: u64,
    /// How many steps of code were run, 2^64 - 1 where they are more.
    pub step_count: u64,
    pub args: [u64; 16],
    /// They begin as they are, and are left as the validation left them.
    pub cells: [u64; 64],
}

// What a validation found, with its steps, and how many loads were made.
#[derive(Drop)]
struct Run {
    found: Option<(Verdict, u64)>,
    count: u64,
}

// Validates a message that lies so in the words, and notes the loads.
fn run_noted<W: Words>(
    session: &mut Session,
    entry: Entry,
    args: &[u64],
    cells: &mut [u64],
    layout: &Layout,
    words: &mut W,
    rows: &mut [TdLoad],
) -> Run
    requires message { W.size words.old ≡ count_in layout.now }
    requires fresh { W.loads words.old ≡ [] }
    ensures code { arc_value session.new.code ≡ arc_value session.old.code }
    ensures ran { IsRunOfCall (arc_value session.old.code) entry args.now cells.old cells.new layout.now (W.loads words.new) session.old.frame session.new.frame rows.old rows.new result.found result.count }
    ensures reaches { W.reaches words.old words.new }
    ensures size { size_of cells.new ≡ size_of cells.old }
{
    let mut noted = NotedWords::over(words, layout, rows);
    let found = session.validate(entry, args, cells, layout, &mut noted);
    Run {
        found,
        count: noted.load_count(),
    }
}

// The same, of the first so many cells.
fn run_front<W: Words>(
    session: &mut Session,
    entry: Entry,
    args: &[u64],
    cells: &mut [u64],
    cell_count: usize,
    layout: &Layout,
    words: &mut W,
    rows: &mut [TdLoad],
) -> Run
    requires message { W.size words.old ≡ count_in layout.now }
    requires fresh { W.loads words.old ≡ [] }
    requires cells { cell_count ≤ size_of cells.old }
    ensures code { arc_value session.new.code ≡ arc_value session.old.code }
    ensures ran { IsRunOfCall (arc_value session.old.code) entry args.now (take cell_count cells.old) (take cell_count cells.new) layout.now (W.loads words.new) session.old.frame session.new.frame rows.old rows.new result.found result.count }
    ensures reaches { W.reaches words.old words.new }
    ensures unchanged { IsNone result.found → cells.new ≡ cells.old }
    ensures behind { drop cell_count cells.new ≡ drop cell_count cells.old }
    ensures size { size_of cells.new ≡ size_of cells.old }
{
    let (front, _) = cells.split_at_mut(cell_count);
    run_noted(session, entry, args, front, layout, words, rows)
}

// The same, of the first so many arguments and cells of a call, which has room for them.
fn run_call<W: Words>(
    session: &mut Session,
    call: &mut TdCall,
    layout: &Layout,
    words: &mut W,
    rows: &mut [TdLoad],
) -> Run
    requires message { W.size words.old ≡ count_in layout.now }
    requires fresh { W.loads words.old ≡ [] }
    requires args { call.old.arg_count ≤ 16 }
    requires cells { call.old.cell_count ≤ 64 }
    ensures code { arc_value session.new.code ≡ arc_value session.old.code }
    ensures ran { IsRunOfCall (arc_value session.old.code) (entry_asked call.old) (args_of call.old) (cells_of call.old) (cells_of call.new) layout.now (W.loads words.new) session.old.frame session.new.frame rows.old rows.new result.found result.count }
    ensures reaches { W.reaches words.old words.new }
    ensures unchanged { IsNone result.found → call.new ≡ call.old }
    ensures same { SameQuestion call.old call.new }
{
    let entry = Entry { number: call.entry };
    let arg_count = call.arg_count as usize;
    let cell_count = call.cell_count as usize;
    let all = &call.args[..];
    let (args, _) = all.split_at(arg_count);
    let cells = &mut call.cells[..];
    run_front(session, entry, args, cells, cell_count, layout, words, rows)
}

fn verdict_numbers(verdict: Verdict) -> (u32, u32)
    ensures { (result.0 ≡ position_told verdict) × (result.1 ≡ reason_told verdict) }
{
    match verdict {
        Verdict::Accept { pos } => (pos, 6),
        Verdict::Reject { reason, pos } => (pos, reason_of(reason)),
    }
}

// Validates a message that lies so in the words, of which none was loaded.
fn validate<W: Words>(
    session: &mut Session,
    call: &mut TdCall,
    layout: &Layout,
    words: &mut W,
    rows: &mut [TdLoad],
) -> Answer
    requires message { W.size words.old ≡ count_in layout.now }
    requires fresh { W.loads words.old ≡ [] }
    ensures code { arc_value session.new.code ≡ arc_value session.old.code }
    ensures answered { HasAnswered (arc_value session.old.code) session.old.frame session.new.frame result (W.loads words.new) rows.old rows.new call.old call.new layout.now (Unit {0}) }
    ensures reaches { W.reaches words.old words.new }
{
    if (call.entry as usize) >= session.entry_count() {
        words_stay(words);
        return Err(Refusal::NoEntry);
    }
    if call.arg_count > 16 || call.cell_count > 64 {
        words_stay(words);
        return Err(Refusal::Unfit);
    }
    let Run { found, count } = run_call(session, call, layout, words, rows);
    match found {
        Some((verdict, steps)) => {
            let (position, reason) = verdict_numbers(verdict);
            call.position = position;
            call.reason = reason;
            call.frame_count = session.trace().len() as u64;
            call.load_count = count;
            call.step_count = steps;
            Ok(verdict)
        }
        None => Err(Refusal::Unfit),
    }
}

/// Validates a message that lies so, where it is within the words, and gives the words back.
pub(crate) fn validate_within(
    session: &mut Session,
    call: &mut TdCall,
    layout: &Layout,
    inside: bool,
    words: TdWords,
    count: usize,
    rows: &mut [TdLoad],
) -> (Answer, Made, TdWords)
    requires inside { IsTrue inside ↔ AreWithin count layout.now }
    requires count { words.count ≡ count }
    requires fresh { words.made ≡ [] }
    ensures code { arc_value session.new.code ≡ arc_value session.old.code }
    ensures answered { HasAnswered (arc_value session.old.code) session.old.frame session.new.frame result.0 result.1 rows.old rows.new call.old call.new layout.now (AreWithin count layout.now) }
    ensures loaded { result.2.made ≡ buffered (Some layout.now) result.1 }
    ensures words { result.2.count ≡ words.count }
{
    if !inside {
        return (Err(Refusal::Past), Made::new(), words);
    }
    let mut memory = ForeignWords::over(words, layout);
    let answer = validate(session, call, layout, &mut memory, rows);
    let (words, made) = memory.end();
    (answer, made, words)
}

/// Validates a message that is these pieces, where each of them is within its words.
pub(crate) fn validate_pieces(
    session: &mut Session,
    call: &mut TdCall,
    layout: &Layout,
    whole: bool,
    pieces: &mut [TdPiece],
    rows: &mut [TdLoad],
) -> (Answer, Made)
    requires whole { IsTrue whole ↔ AreWhole pieces.old }
    requires laid { layout.now ≡ layout_of pieces.old }
    requires fresh { AreFresh pieces.old }
    ensures code { arc_value session.new.code ≡ arc_value session.old.code }
    ensures answered { HasAnswered (arc_value session.old.code) session.old.frame session.new.frame result.0 result.1 rows.old rows.new call.old call.new layout.now (AreWhole pieces.old) }
    ensures loaded { HasLoads pieces.old pieces.new result.1 }
{
    if !whole {
        return (Err(Refusal::Past), Made::new());
    }
    let mut made = Made::new();
    let mut memory = PieceWords::over(pieces, layout, &mut made);
    let answer = validate(session, call, layout, &mut memory, rows);
    (answer, made)
}

// Words reach themselves.
fn words_stay<W: Words>(words: &W)
    ensures { W.reaches words.now words.now }
{
    words.count();
}
