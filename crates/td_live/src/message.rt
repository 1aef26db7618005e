//! Where a message lies that is validated.

use crate::gate::PostName;
use td_stream::layout::Layout;
use td_words::shared::Shared;

/// A message in a buffer that threads share: the buffer, how the message lies in it, and the name by which a gate is told of it.
#[derive(Clone, Copy)]
pub struct LiveMessage<'a> {
    pub shared: &'a Shared,
    pub layout: &'a Layout,
    pub name: PostName,
}
