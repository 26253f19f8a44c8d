//! The texts of journal entries and of a script's lines, and journals that are written.
//!
//! `print_entry` gives the one text of an entry, a line without its LF; `read_entry` reads exactly the
//! texts that some entry has, and gives that entry; `read_event` does the same for a moment and an
//! event, as a script's line has them. No entry has two spellings, and no line two meanings.
//! `holds_values` says that every entry is one of those of which these calls speak, and `ESCAPES` is the
//! set of bytes that are escaped.
//!
//! A reader goes over each word of the line a fixed number of times. It allocates the texts and the list
//! of fields that it gives, and for a while the whole text of a field and the printed text of an
//! address: all in proportion to the line. A line that it refuses may take memory too, and so may end
//! by want of it. No clause says what a call costs.
//!
//! `Journal` says what a call does to the entries that a journal tells, to its spare places and to its count of
//! faults: `reserve` makes places, and may want memory; `note` takes one, and takes no memory. `MemJournal` tells its
//! entries and fails where its lists say so. `SinkJournal` writes version 2 to a sink, and nothing after a fault.
#![tactic(auto)]

mod addresses;
mod answers;
mod entries;
mod escapes;
mod events;
mod faults;
mod journal;
mod lines;
mod mem_journal;
mod names;
mod numbered;
mod outcomes;
mod printing;
mod putting;
mod ranges;
mod rows;
mod sink_journal;
mod told_printing;
mod values;
mod words;

pub use entries::{print_entry, read_entry, read_event, write_entry};
pub use escapes::ESCAPES;
pub use faults::EntryFault;
pub use journal::Journal;
pub use mem_journal::MemJournal;
pub use numbered::{print_numbered, read_numbered, write_numbered};
pub use ranges::holds_values;
pub use sink_journal::SinkJournal;
pub use values::minutes_of;
