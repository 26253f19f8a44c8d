//! Why a line ends a journal.
use sq_base::Text;

/// Why a line ends a journal.
#[derive(Drop)]
pub enum Halt {
    /// It is no line of the journal, or the machine refuses its event.
    NoLine,
    /// The machine's line has this text, without LF, and the journal's another.
    Differs(Text),
    /// There was no memory to judge it.
    WantOfMemory,
}
