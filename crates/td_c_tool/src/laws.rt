//! Laws of what `tdc` answers and refuses. They do nothing when they are called.

ghost use Rattle.td_c_tool.specs.Laws.{AlwaysOne, NeverBoth, OneAnswer};

use td_code::laws::code_is_one;
use td_front::laws as front;

/// A command answers an input with at most one output: the C of a module text is one.
pub fn one_answer()
    ensures { OneAnswer }
{
    front::one_answer_each();
    code_is_one();
}

/// What a command admits it doesn't refuse.
pub fn never_both()
    ensures { NeverBoth }
{
    front::one_answer_each();
}

/// Each input of a command whose name can begin names of C is admitted, or it is refused.
pub fn admitted_or_refused()
    ensures { AlwaysOne }
{
    front::module_or_refusal();
}
