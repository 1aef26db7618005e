//! That a session may go to another thread, and its code be shared by several.

use crate::kept::Kept;
use crate::session::Session;
use crate::versions::{Publisher, Reader};

fn goes<T: Send>() {}

fn is_shared<T: Sync>() {}

/// A session may be handed to another thread, and sessions of several threads have one code; so may those who publish and ask.
pub fn session_goes() {
    goes::<Session>();
    is_shared::<Kept>();
    goes::<Publisher>();
    goes::<Reader>();
}
