//! Lines of a configuration that are read without effect.
use sq_base::{Listed, Text};

/// A line, from 1, and its directive, which has no effect here or only in part.
#[derive(PartialEq, Eq)]
pub struct Notice {
    pub line: u32,
    pub directive: Text,
}

impl Drop for Notice {
    fn drop(self) {
        let Notice {
            line: _,
            directive: _,
        } = self;
    }
}

/// A list of notices.
pub type Notices = Listed<Notice>;
