//! Laws of the generator's messages. They do nothing when they are called.

ghost use Rattle.td_gen.specs.Laws.{OneMessageEach, SomeMessageEach};

/// There is at most one message of each number.
pub fn one_message_each()
    ensures { OneMessageEach }
{}

/// There is a message of each number.
pub fn some_message_each()
    ensures { SomeMessageEach }
{}
