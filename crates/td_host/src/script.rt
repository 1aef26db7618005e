//! Copies of guests' scripts.

ghost use Rattle.std.specs.Prelude.{◌≡◌, IfOk};

use std::alloc::{AllocError, Global};
use td_num::items::Items;
use td_posts::job::Step;

/// The same step. `AllocError`: there was no memory for its list of stretches.
fn copied(alloc: Global, step: &Step) -> Result<Step, AllocError>
    ensures { IfOk result (λ copy. copy ≡ step.now) }
{
    Ok(match step {
        Step::Store { word, value } => Step::Store {
            word: *word,
            value: *value,
        },
        Step::Post { base, length } => Step::Post {
            base: *base,
            length: *length,
        },
        Step::Scatter { layout } => Step::Scatter {
            layout: layout.copied(alloc)?,
        },
    })
}

/// The same steps. `AllocError`: there was no memory for them.
pub(crate) fn copied_script(alloc: Global, script: &[Step]) -> Result<Items<Step>, AllocError>
    ensures { IfOk result (λ steps. steps ≡ script.now) }
{
    let mut steps = Vec::with_capacity(alloc, script.len())?;
    for step in script {
        steps.push_reserved(copied(alloc, step)?);
    }
    Ok(Items::of(steps))
}
