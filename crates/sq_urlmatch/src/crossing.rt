//! That a setup and its patterns may cross threads: be handed to another, or stand behind a lock.
use crate::patterns::Patterns;
use crate::setup::Setup;

// Takes what may cross threads, and does nothing with it.
fn crosses<T: Send + Sync>(_value: &T) {}

/// Patterns cross threads.
pub fn patterns_cross(patterns: &Patterns) {
    crosses(patterns);
}

/// A setup crosses threads.
pub fn setup_crosses(setup: &Setup) {
    crosses(setup);
}
