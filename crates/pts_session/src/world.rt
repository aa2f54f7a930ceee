// What sessions work in.

use pts_ctx::System;

/// What all sessions share, and never changes: the system.
#[derive(Drop)]
pub struct World {
    pub system: System,
}
