//! Laws of code in blocks. They do nothing when they are called.

ghost use Rattle.td_verify_lowered.specs.Laws.{LaidCodeIsSound, LoweredCodeIsSound, BlocksHaveCode};
ghost use Rattle.td_verify_lowered.specs.Modules.{ModulesAreAccepted, ModulesAreLight, OperandsFit};

/// Code whose routines are blocks that stand as they may keeps all rules.
pub fn laid_code_is_sound()
    ensures { LaidCodeIsSound }
{}

/// Code whose routines are constructs of the language as they may be keeps all rules.
pub fn lowered_code_is_sound()
    ensures { LoweredCodeIsSound }
{}

/// The code of a module, laid out by its tables, keeps all rules.
pub fn modules_are_accepted()
    ensures { ModulesAreAccepted }
{}

/// A routine of such code weighs no more than the definition whose code it is.
pub fn modules_are_light()
    ensures { ModulesAreLight }
{}

/// The block of a definition has at least one instruction.
pub fn blocks_have_code()
    ensures { BlocksHaveCode }
{}

/// A definition's fields name its own cells and buffers, and its bit fields are bits of a number.
pub fn operands_fit()
    ensures { OperandsFit }
{}
