//! What is found of a journal.
use sq_base::Text;

/// What is found of a journal. Lines are numbered from 1.
#[derive(Drop)]
pub enum Finding {
    /// Each line is the machine's, and there are so many entries.
    Verified(u64),
    /// This line is no line of the journal, or the machine refuses its event.
    Script(u64),
    /// This line is another than the machine's, both without LF.
    Differs {
        line: u64,
        machine: Text,
        journal: Text,
    },
    /// The journal could not be read.
    ReadFault,
    /// There was no memory.
    WantOfMemory,
}
