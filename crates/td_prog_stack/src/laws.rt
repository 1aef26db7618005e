//! Laws. They do nothing when they are called.

ghost use Rattle.td_prog_stack.specs.Laws.{StackIsNeed};

use td_verify::laws::sound_code_is_safe;

/// The deepest chain of calls of a program of verified code, in functions and in variables, by what the code needs.
pub fn stack_is_need()
    ensures { StackIsNeed }
{
    sound_code_is_safe();
}
