//! Laws of the rules. They do nothing when they are called.

ghost use Rattle.td_ir.specs.declared.tables.Parts.{Parts};
ghost use Rattle.td_ir.specs.WellFormed.{IsCode};
ghost use Rattle.td_verify.specs.Verify.{IsSound};
ghost use Rattle.td_verify.specs.Safe.{IsSafe};

/// Code whose tables fit together and whose instructions keep all rules has what a machine rests on.
pub fn sound_code_is_safe()
    ensures { (c : Parts) → IsCode c → IsSound c → IsSafe c }
{}
