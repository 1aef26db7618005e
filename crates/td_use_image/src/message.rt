//! From an image and a message's bytes to an outcome and its loads.

ghost use Rattle.std.specs.Prelude.{◌≡◌, ◌*◌, ◌<◌, ◌≤◌, ◌^◌, ◌∷◌, [], Err, length, IfOk};
ghost use Rattle.std.specs.List.{All};
ghost use Rattle.td_stream.specs.Layouts.{plain};
ghost use Rattle.td_job.specs.Words.{IsFilled};
ghost use Rattle.td_ir.specs.Tables.{entry_of};
ghost use Rattle.td_ir.specs.Entries.{Fits};
ghost use Rattle.td_image.specs.declared.error.ImageError.{ImageError};
ghost use Rattle.td_image.specs.Answer.{IsRefused, MayRunOut, RanOut};
ghost use Rattle.td_use_image.specs.declared.message.AnswerError.{AnswerError};
ghost use Rattle.td_run.specs.Validation.{IsValidation};
ghost use Rattle.td_use_image.specs.Answers.{firsts, IsAnswer, IsWithoutEntry};

use crate::shared_words::{SharedWord, SharedWords};
use crate::validation::validated;
use std::alloc::{AllocError, Global};
use td_core::module::Entry;
use td_core::outcome::Outcome;
use td_image::{ImageError, read_image};
use td_ir::entries::{entry_in, fits};
use td_job::words::fill_words;
use td_stream::loads::Loads;
use td_verify::verify::Verified;
use thiserror::Error;

/// How a validation came out, and the loads that it made.
#[derive(Drop)]
pub struct Answer {
    pub outcome: Outcome,
    pub loads: Loads,
}

/// Why there is no answer.
#[derive(Debug, Drop, Error)]
pub enum AnswerError {
    #[error("the image isn't read: {0}")]
    Image(ImageError),
    #[error("no entry point of this name takes the message's length alone")]
    Entry,
    #[error("the message is too long")]
    Long,
    #[error("out of memory")]
    NoMemory,
}

impl From<AllocError> for AnswerError {
    ghost use Rattle.std.specs.Prelude.{◌≡◌};
    ghost use Rattle.td_use_image.specs.declared.message.AnswerError.TheVariants.{NoMemory};

    ghost from_gives = { λ _ e. e ≡ NoMemory };

    fn from(_: AllocError) -> AnswerError {
        AnswerError::NoMemory
    }
}

impl From<ImageError> for AnswerError {
    ghost use Rattle.std.specs.Prelude.{◌≡◌};
    ghost use Rattle.td_use_image.specs.Answers.{image_refused};

    ghost from_gives = { λ e a. a ≡ image_refused e };

    fn from(error: ImageError) -> AnswerError {
        match error {
            ImageError::NoMemory => AnswerError::NoMemory,
            error => AnswerError::Image(error),
        }
    }
}

// Words that begin with a message, zero bytes filling the last one.
fn shared(alloc: Global, message: &[u8]) -> Result<Vec<SharedWord>, AllocError>
    requires { length message.now < 2 ^ 32 }
    ensures filled { IfOk result (λ words. IsFilled message.now (length words.items) (firsts words.items)) }
    ensures room { IfOk result (λ words. length message.now ≤ 8 * length words.items) }
    ensures few { IfOk result (λ words. length words.items < 2 ^ 32) }
{
    let filled = fill_words(alloc, message, (message.len() as u32).div_ceil(8))?;
    let mut words = Vec::new(alloc);
    for word in filled.as_slice() {
        words.push(SharedWord::new(*word))?;
    }
    Ok(words)
}

// As many zeros as an entry point has cells.
fn zeros(alloc: Global, code: &Verified, entry: Entry) -> Result<Vec<u64>, AllocError>
    ensures zeros { IfOk result (λ cells. All (λ v. v ≡ 0) cells.items) }
    ensures count { IfOk result (λ cells. entry.number < length code.now.entries → length cells.items ≡ length (entry_of code.now entry.number).cells) }
{
    match code
        .code()
        .parts()
        .entries
        .as_slice()
        .get(entry.number as usize)
    {
        Some(point) => vec![in alloc; 0; point.cells.len()],
        None => Ok(Vec::new(alloc)),
    }
}

// Validates a message from an entry point on, in words that are made for it.
fn validate_shared(
    alloc: Global,
    code: &Verified,
    entry: Entry,
    args: &[u64],
    cells: &[u64],
    message: &[u8],
) -> Result<Answer, AllocError>
    requires fits { Fits code.now entry args.now cells.now }
    requires short { length message.now < 2 ^ 32 }
    ensures { IfOk result (λ a. IsValidation code.now entry args.now cells.now (plain (length message.now)) a.loads.list a.outcome) }
{
    let filled = shared(alloc, message)?;
    let mut words = SharedWords::over(alloc, &filled)?;
    let outcome = validated(
        alloc,
        code,
        entry,
        args,
        cells,
        message.len() as u32,
        &mut words,
    )?;
    let SharedWords { loads, .. } = words;
    Ok(Answer { outcome, loads })
}

/// Validates a message by the code of an image, from its first entry point of this name on, which takes the message's length and
/// nothing else. The cells begin at zero. `Image`: why the bytes are no image; `Entry`: they are one, whose code has no such entry point;
/// `Long`: the message has 2^32 bytes or more; `NoMemory`: there was no memory, which comes only where a first row of a table was read, or the
/// bytes are an image.
pub fn validate_message(
    alloc: Global,
    image: &[u8],
    name: &[u8],
    message: &[u8],
) -> Result<Answer, AnswerError>
    ensures answer { IfOk result (λ a. IsAnswer image.now name.now (length message.now ∷ []) (length message.now) a.loads.list a.outcome) }
    ensures image { (e : ImageError) → result ≡ Err (AnswerError.Image e) → IsRefused image.now e × (RanOut e → ⊥) }
    ensures memory { result ≡ Err AnswerError.NoMemory → MayRunOut image.now }
    ensures entry { result ≡ Err AnswerError.Entry → IsWithoutEntry image.now name.now (length message.now ∷ []) }
    ensures long { result ≡ Err AnswerError.Long → 2 ^ 32 ≤ length message.now }
{
    if message.len() >= 1 << 32 {
        return Err(AnswerError::Long);
    }
    let code = read_image(alloc, image)?;
    let Some(entry) = entry_in(code.code(), name) else {
        return Err(AnswerError::Entry);
    };
    let args = [message.len() as u64];
    let cells = zeros(alloc, &code, entry)?;
    if !fits(code.code(), entry, &args, &cells) {
        return Err(AnswerError::Entry);
    }
    Ok(validate_shared(alloc, &code, entry, &args, &cells, message)?)
}
