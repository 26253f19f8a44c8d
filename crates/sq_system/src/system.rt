//! Adapters over the system's files and streams: the trusted edge. They tell what std's objects tell.
ghost use Rattle.std.specs.Prelude.{◌≡◌, ◌-◌, ◌^◌, ◌≤◌, None, Err, IfOk, IsErrOf};
ghost use Rattle.std.specs.Str.{IsUtf8};
ghost use Rattle.sq_outside.specs.Causes.{OpenHasCause};
ghost use Rattle.sq_outside.specs.Told.{GivesText, IsNotTold, Opens};

use crate::access_log::AccessLog;
use crate::again::{raise, read_again, write_again};
use sq_base::Text;
use sq_outside::{Failed, Files, NoOpen, Sink, Source};
use std::alloc::Global;
use std::io::{ErrorKind, Read, Write};
use std::{fs, rt};

/// A source over a reader of std.
#[derive(Drop)]
pub struct RealSource<R> {
    inner: R,
    faults: u64,
    ghost capped: { faults ≤ 2 ^ 63 - 1 },
}

impl<R> RealSource<R> {
    ghost use Rattle.sq_system.specs.System.{reader_of, reader_faults};

    /// A source over this reader, with the count 0.
    pub fn new(inner: R) -> RealSource<R>
        ensures inner { reader_of result ≡ inner }
        ensures faults { reader_faults result ≡ 0 }
    {
        RealSource { inner, faults: 0 }
    }
}

impl<R: Read> Source for RealSource<R> {
    ghost left = { λ s. R.remaining s.inner };

    ghost origin = { λ _. None };

    ghost faults = { λ s. s.faults };

    ghost capped = { λ s. s.capped };

    fn read(&mut self, into: &mut [u8]) -> Result<usize, Failed> {
        read_again(&mut self.inner, into, &mut self.faults)
    }
}

/// A sink over a writer of std.
#[derive(Drop)]
pub struct RealSink<W> {
    inner: W,
    faults: u64,
    ghost capped: { faults ≤ 2 ^ 63 - 1 },
}

impl<W> RealSink<W> {
    ghost use Rattle.sq_system.specs.System.{writer_of, writer_faults};

    /// A sink over this writer, with the count 0.
    pub fn new(inner: W) -> RealSink<W>
        ensures inner { writer_of result ≡ inner }
        ensures faults { writer_faults result ≡ 0 }
    {
        RealSink { inner, faults: 0 }
    }
}

impl<W: Write> Sink for RealSink<W> {
    ghost contents = { λ s. W.contents s.inner };

    ghost faults = { λ s. s.faults };

    ghost capped = { λ s. s.capped };

    fn write(&mut self, bytes: &[u8]) -> Result<usize, Failed> {
        write_again(&mut self.inner, bytes, &mut self.faults)
    }
}

/// The system's files, by names that are UTF-8. It tells neither texts nor openings.
#[derive(Drop)]
pub struct RealFiles<'a, R> {
    rt: &'a R,
    // The access log, which is opened anew with each file.
    log: Option<&'a AccessLog>,
    faults: u64,
    ghost capped: { faults ≤ 2 ^ 63 - 1 },
}

impl<'a, R> RealFiles<'a, R> {
    ghost use Rattle.sq_system.specs.System.{system_faults};

    /// The files of this runtime, with the count 0.
    pub fn new(rt: &'a R) -> RealFiles<'a, R>
        ensures { system_faults result ≡ 0 }
    {
        RealFiles {
            rt,
            log: None,
            faults: 0,
        }
    }

    /// The same. Each opening opens this access log anew, too, if it is on: so it is where a server reads its configuration again.
    pub fn with_log(rt: &'a R, log: &'a AccessLog) -> RealFiles<'a, R>
        ensures { system_faults result ≡ 0 }
    {
        RealFiles {
            rt,
            log: Some(log),
            faults: 0,
        }
    }
}

impl<'a, R: rt::Files> Files for RealFiles<'a, R> {
    ghost use Rattle.sq_system.specs.System.{reader_of, reader_faults, system_faults, no_texts, no_openings};

    type Src = RealSource<R::File>;

    ghost texts = { λ _. no_texts };

    ghost opened = { λ _. no_openings };

    ghost faults = { λ s. s.faults };

    ghost capped = { λ s. s.capped };

    fn open(&mut self, _alloc: Global, name: &Text) -> Result<RealSource<R::File>, NoOpen>
        ensures opened { IfOk result
            (λ source. GivesText no_texts name.now (R.File.remaining (reader_of source))) }
        ensures opened_list { Opens (λ source. R.File.remaining (reader_of source)) no_openings
            no_openings name.now result }
        ensures fresh { IfOk result (λ source. reader_faults source ≡ 0) }
        ensures missing { IsErrOf result NoOpen.Missing → IsNotTold no_texts name.now }
        ensures texts { no_texts ≡ no_texts }
        ensures cause { OpenHasCause (system_faults self.old) (system_faults self.new) result }
        // Std opens names that are UTF-8 alone: any other name is a fault, and not missing.
        ensures utf8 { (IsUtf8 name.now → ⊥) → result ≡ Err NoOpen.Failed }
    {
        if let Some(log) = self.log {
            log.renew();
        }
        let Ok(path) = str::from_utf8(name.as_bytes()) else {
            raise(&mut self.faults);
            return Err(NoOpen::Failed);
        };
        match fs::open(self.rt, path) {
            Ok(file) => Ok(RealSource::new(file)),
            Err(e) => match e.kind() {
                ErrorKind::NotFound => Err(NoOpen::Missing),
                ErrorKind::OutOfMemory => Err(NoOpen::WantOfMemory),
                _ => {
                    raise(&mut self.faults);
                    Err(NoOpen::Failed)
                }
            },
        }
    }

    fn give_back(&mut self, source: RealSource<R::File>) {
        if source.faults > 0 {
            raise(&mut self.faults);
        }
    }
}
