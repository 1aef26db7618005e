//! The fields whose values a definition's value lists.

ghost use Rattle.std.specs.Prelude.{◌≡◌, ◌≢◌, ℕ, List, IfOk, IfErr};
ghost use Rattle.td_write_values.specs.Writing.{Writer, fields_written, body_written, in_machine};
ghost use Rattle.td_write.specs.Writes.{Halts};

use crate::halt::Halt;
use crate::numbers::is_count;
use crate::parts::want;
use td_core::module::{Body, Field, TypeDef};
use td_core::outcome::Reason;
use td_meaning::casetypes::case_for;
use td_meaning::expressions::{is_met, value_of};
use td_write_values::error::WriteRule;
use td_write_values::value::Value;

/// The fields of a struct, or of the case that is chosen, where there are as many values as they have and `where` is met. Takes no
/// memory.
pub(crate) fn written_fields<'a>(
    definition: &'a TypeDef,
    values: &[Value],
    args: &[u64],
) -> Result<&'a [Field], Halt>
    ensures ok { IfOk result (λ fields. (sets : List (List ℕ)) (writers : ℕ → Writer) (places path : List ℕ) (p : ℕ) (cells : List ℕ)
        → body_written in_machine sets writers definition.now definition.now.body args.now places path p cells values.now
        ≡ fields_written in_machine sets writers definition.now.name fields.now args.now places path 0 p cells values.now) }
    ensures err { IfErr result (λ h. (sets : List (List ℕ)) (writers : ℕ → Writer) (places path : List ℕ) (p : ℕ) (cells : List ℕ)
        → Halts h path (body_written in_machine sets writers definition.now definition.now.body args.now places path p cells values.now)) }
    ensures broken { IfErr result (λ h. h ≢ Halt.NoMemory) }
{
    match &definition.body {
        Body::Struct(fields) => {
            want(is_count(fields.as_slice(), values.len()), WriteRule::Shape)?;
            want(
                is_met(&definition.guard, args),
                WriteRule::Broken(Reason::Constraint),
            )?;
            Ok(fields.as_slice())
        }
        Body::Casetype {
            switch,
            cases,
            default,
        } => {
            want(
                is_met(&definition.guard, args),
                WriteRule::Broken(Reason::Constraint),
            )?;
            let Some(fields) = case_for(value_of(switch, args), cases.as_slice(), default) else {
                return Err(Halt::Broken(WriteRule::Broken(Reason::Impossible)));
            };
            want(is_count(fields.as_slice(), values.len()), WriteRule::Shape)?;
            Ok(fields.as_slice())
        }
    }
}
