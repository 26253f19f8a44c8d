//! `MemFiles`: files in memory.
ghost use Rattle.std.specs.Prelude.{◌≡◌, ◌+◌, ◌<◌, ◌≤◌, [], true, false, max, vec_len, vec_capacity, Some, Err, IfNone, IfOk, OnErr, IsErrOf, bytes_eq};
ghost use Rattle.std.specs.List.{find};
ghost use Rattle.std.specs.Option.{option_copied};
ghost use Rattle.sq_outside.specs.Calls.{next_call, counted};
ghost use Rattle.sq_outside.specs.Causes.{OpenHasCause, TakesBack, raised};
ghost use Rattle.sq_outside.specs.Told.{GivesText, IsNotTold, Opens};

use crate::mem_source::MemSource;
use sq_base::{Copying, Text, WantOfMemory};
use sq_outside::{Calls, Files, NoOpen};
use std::alloc::Global;

/// A file in memory, and the numbers of the reads of its sources that are to fail.
#[derive(Drop)]
pub struct MemFile {
    pub name: Text,
    pub text: Text,
    pub fails: Vec<u64>,
}

/// An opening that gave a source: the name, and the whole text.
#[derive(Drop)]
pub struct MemOpening {
    pub name: Text,
    pub text: Text,
}

/// Files in memory with room for a stated number of openings. Their sources give at most `step` bytes in a call.
#[derive(Drop)]
pub struct MemFiles {
    pub(crate) files: Vec<MemFile>,
    pub(crate) openings: Vec<MemOpening>,
    pub(crate) room: usize,
    pub(crate) step: usize,
    pub(crate) calls: Calls,
    ghost held: { vec_len openings ≤ room },
    ghost fits: { room ≤ vec_capacity openings },
}

/// The first file of this name.
fn find_file<'a>(files: &'a [MemFile], name: &[u8]) -> Option<&'a MemFile>
    ensures { option_copied result ≡ find (λ f. bytes_eq f.name name.now) files.now }
{
    files.iter().find(|f| f.name.as_bytes() == name)
}

impl MemFile {
    ghost use Rattle.sq_outside_mem.specs.Memory.{source_left, source_step, source_fails, source_calls, source_faults};

    /// A source of its text.
    fn source(&self, alloc: Global, step: usize) -> Result<MemSource, WantOfMemory>
        ensures left { IfOk result (λ s. source_left s ≡ self.now.text) }
        ensures step { IfOk result (λ s. source_step s ≡ max step 1) }
        ensures fails { IfOk result (λ s. source_fails s ≡ self.now.fails.items) }
        ensures calls { IfOk result (λ s. source_calls s ≡ 0) }
        ensures faults { IfOk result (λ s. source_faults s ≡ 0) }
    {
        let text = self.text.copy(alloc)?.into_vec();
        let fails = Vec::from_slice(alloc, self.fails.as_slice())?;
        Ok(MemSource::new(text, step, fails))
    }
}

impl MemFiles {
    ghost use Rattle.sq_outside_mem.specs.Memory.{files_list, files_opened, files_room, files_step, files_fails, files_calls, files_faults};

    /// These files, with room for so many openings, of which the listed ones are to fail.
    pub fn new(
        alloc: Global,
        files: Vec<MemFile>,
        step: usize,
        room: usize,
        fails: Vec<u64>,
    ) -> Result<MemFiles, WantOfMemory>
        ensures files { IfOk result (λ s. files_list s ≡ files.items) }
        ensures opened { IfOk result (λ s. files_opened s ≡ []) }
        ensures room { IfOk result (λ s. files_room s ≡ room) }
        ensures step { IfOk result (λ s. files_step s ≡ step) }
        ensures fails { IfOk result (λ s. files_fails s ≡ fails.items) }
        ensures calls { IfOk result (λ s. files_calls s ≡ 0) }
        ensures faults { IfOk result (λ s. files_faults s ≡ 0) }
    {
        let openings = Vec::with_capacity(alloc, room)?;
        Ok(MemFiles {
            files,
            openings,
            room,
            step,
            calls: Calls::new(fails),
        })
    }
}

impl Files for MemFiles {
    ghost use Rattle.sq_outside_mem.specs.Memory.{source_left, source_step, source_fails, source_calls, source_faults, text_at, fails_at};
    ghost use Rattle.sq_outside_mem.specs.Memory.{files_list, files_opened, files_room, files_step};
    ghost use Rattle.sq_outside_mem.specs.Memory.{files_fails, files_calls, files_lists_next, files_fails_next, files_faults};

    type Src = MemSource;

    ghost texts = { λ s. Some (text_at (files_list s)) };

    ghost opened = { λ s. Some (files_opened s) };

    ghost faults = { files_faults };

    ghost capped = { λ s. s.calls.capped };

    fn open(&mut self, alloc: Global, name: &Text) -> Result<MemSource, NoOpen>
        ensures opened { IfOk result
            (λ source. GivesText (Some (text_at (files_list self.old))) name.now
            (Some (source_left source))) }
        ensures opened_list { Opens (λ source. Some (source_left source))
            (Some (files_opened self.old))
            (Some (files_opened self.new)) name.now result }
        ensures fresh { IfOk result (λ source. source_faults source ≡ 0) }
        ensures missing { IsErrOf result NoOpen.Missing
            → IsNotTold (Some (text_at (files_list self.old))) name.now }
        ensures texts { Some (text_at (files_list self.new))
            ≡ Some (text_at (files_list self.old)) }
        ensures cause { OpenHasCause (files_faults self.old) (files_faults self.new) result }
        // A file that is not there is missing, unless the call is listed.
        ensures absent { files_lists_next self.old ≡ false
            → IfNone (text_at (files_list self.old) name.now)
            (result ≡ Err NoOpen.Missing) }
        // The source fails as its file lists it.
        ensures reads { IfOk result
            (λ source. fails_at (files_list self.old) name.now ≡ Some (source_fails source)) }
        ensures reads_calls { IfOk result (λ source. source_calls source ≡ 0) }
        ensures reads_step { IfOk result
            (λ source. source_step source ≡ max (files_step self.old) 1) }
        ensures room { IfOk result (λ _. files_room self.new + 1 ≡ files_room self.old) }
        ensures kept { OnErr result (files_room self.new ≡ files_room self.old) }
        // A call fails where it is listed, or the file is there and no room is left, and only there; each
        // failure is counted.
        ensures fails { files_fails_next self.old name.now ≡ true → result ≡ Err NoOpen.Failed }
        ensures fails_only { IsErrOf result NoOpen.Failed
            → files_fails_next self.old name.now ≡ true }
        ensures counts { files_faults self.new
            ≡ counted (files_fails_next self.old name.now) (files_faults self.old) }
        ensures calls { files_calls self.new ≡ next_call (files_calls self.old) }
        // With an empty list a call fails only where the file is there and no room is left.
        ensures quiet { files_fails self.old ≡ [] → 0 < files_room self.old
            → files_faults self.new ≡ files_faults self.old }
        ensures quiet_absent { files_fails self.old ≡ []
            → IfNone (text_at (files_list self.old) name.now)
            (files_faults self.new ≡ files_faults self.old) }
        // The files stay, and so do the lists of their reads that are to fail.
        ensures files { files_list self.new ≡ files_list self.old }
        ensures list { files_fails self.new ≡ files_fails self.old }
        ensures step { files_step self.new ≡ files_step self.old }
    {
        if self.calls.next().is_err() {
            return Err(NoOpen::Failed);
        }
        match find_file(self.files.as_slice(), name.as_bytes()) {
            None => Err(NoOpen::Missing),
            Some(file) => {
                if self.openings.len() == self.room {
                    self.calls.raise();
                    return Err(NoOpen::Failed);
                }
                let source = file.source(alloc, self.step)?;
                let opening = MemOpening {
                    name: name.copy(alloc)?,
                    text: file.text.copy(alloc)?,
                };
                self.openings.push(opening).unwrap();
                Ok(source)
            }
        }
    }

    fn give_back(&mut self, source: MemSource)
        ensures texts { Some (text_at (files_list self.new))
            ≡ Some (text_at (files_list self.old)) }
        ensures opened_list { Some (files_opened self.new) ≡ Some (files_opened self.old) }
        ensures cause { TakesBack (files_faults self.old) (files_faults self.new)
            (source_faults source) }
        ensures counts { 0 < source_faults source
            → files_faults self.new ≡ raised (files_faults self.old) }
        ensures files { files_list self.new ≡ files_list self.old }
        ensures calls { files_calls self.new ≡ files_calls self.old }
        ensures room { files_room self.new ≡ files_room self.old }
        ensures list { files_fails self.new ≡ files_fails self.old }
        ensures step { files_step self.new ≡ files_step self.old }
    {
        if source.calls.faults > 0 {
            self.calls.raise();
        }
    }
}
