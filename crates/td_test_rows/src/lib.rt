//! Texts, and what the definitions say of each: the first breach, operator or kind that is refused, the limits, and the meaning on
//! messages. The functions do nothing when they are called: that their clauses are proved shows, by computation, what the
//! definitions say of these texts.
#![tactic(auto)]

ghost use Rattle.td_test_rows.specs.Rows.{AreRight};
ghost use Rattle.td_test_rows.specs.Enums.{enums};
ghost use Rattle.td_test_rows.specs.Actions.{actions};
ghost use Rattle.td_test_rows.specs.Casetypes.{casetypes};
ghost use Rattle.td_test_rows.specs.Copies.{copies, rooms};
ghost use Rattle.td_test_rows.specs.Sizes.{sizes};
ghost use Rattle.td_test_rows.specs.Parameters.{parameters};
ghost use Rattle.td_test_rows.specs.Names.{names};
ghost use Rattle.td_test_rows.specs.Expressions.{expressions};
ghost use Rattle.td_test_rows.specs.Formats.{formats};
ghost use Rattle.td_test_rows.specs.Worked.{AreWorked};
ghost use Rattle.td_test_rows.specs.Findings.{SafetyHolds, RoomsHold, ValuesHold, KindsHold, LimitsHold, SizesHold};
ghost use Rattle.td_test_rows.specs.Messages.{MessagesHold};
ghost use Rattle.td_test_rows.specs.Readings.{readings};
ghost use Rattle.td_test_rows.specs.Safety.{safety};
ghost use Rattle.td_test_rows.specs.Kinds.{kinds};
ghost use Rattle.td_test_rows.specs.Limits.{limits};
ghost use Rattle.td_test_rows.specs.Measured.{measured};
ghost use Rattle.td_test_rows.specs.Told.{told_rows};
ghost use Rattle.td_test_rows.specs.Given.{given, values, given_messages};

/// Rows on enums.
pub fn enums_are_right()
    ensures { AreRight enums }
{}

/// Rows on actions.
pub fn actions_are_right()
    ensures { AreRight actions }
{}

/// Rows on copy buffers and copied fields.
pub fn copies_are_right()
    ensures { AreRight copies }
{}

/// Rows on casetypes.
pub fn casetypes_are_right()
    ensures { AreRight casetypes }
{}

/// Rows on sizes.
pub fn sizes_are_right()
    ensures { AreRight sizes }
{}

/// Rows on parameters.
pub fn parameters_are_right()
    ensures { AreRight parameters }
{}

/// Rows on names.
pub fn names_are_right()
    ensures { AreRight names }
{}

/// Rows on expressions.
pub fn expressions_are_right()
    ensures { AreRight expressions }
{}

/// Rows on formats.
pub fn formats_are_right()
    ensures { AreRight formats }
{}

/// Worked texts: the module that each stands for, and what that means on messages.
pub fn worked_texts_are_right()
    ensures { AreWorked }
{}

/// Rows where a rule might be read in two ways.
pub fn readings_are_right()
    ensures { AreRight readings }
{}

/// Rows on the safety rule: the first operator that isn't safe.
pub fn safety_holds()
    ensures { SafetyHolds safety }
{}

/// Rows on copies: the first that may lack room.
pub fn rooms_hold()
    ensures { RoomsHold rooms }
{}

/// Rows on fields without bytes.
pub fn fields_without_bytes_are_right()
    ensures { AreRight given }
{}

/// Rows on fields without bytes: the first value that may not fit its field.
pub fn values_hold()
    ensures { ValuesHold values }
{}

/// Rows on messages with fields without bytes.
pub fn messages_without_bytes_hold()
    ensures { MessagesHold given_messages }
{}

/// Rows on kinds: the first refusal.
pub fn kinds_hold()
    ensures { KindsHold kinds }
{}

/// Rows on limits: the first that is passed.
pub fn limits_hold()
    ensures { LimitsHold limits }
{}

/// Rows on nodes, depth and weight.
pub fn sizes_hold()
    ensures { SizesHold measured }
{}

/// Rows on messages.
pub fn messages_hold()
    ensures { MessagesHold told_rows }
{}
