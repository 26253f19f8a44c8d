//! The adapters over readers and writers of std, and over the system's files.

use sq_base::{Text, WantOfMemory};
use sq_outside::{Files, NoOpen, read_file, read_whole, write_all};
use sq_system::{RealFiles, RealLines, RealSink, RealSource};
use std::alloc::Global;
use std::io::{self, ErrorKind, Read, Write};

// A reader and writer that is interrupted at each second call.
#[derive(Drop)]
struct Stutters<T> {
    inner: T,
    waits: bool,
}

impl<T> Stutters<T> {
    // Whether this call is interrupted.
    fn turn(&mut self) -> io::Result<()> {
        self.waits = !self.waits;
        if self.waits {
            Err(ErrorKind::Interrupted.into())
        } else {
            Ok(())
        }
    }
}

impl<T: Read> Read for Stutters<T> {
    fn read(&mut self, buf: &mut [u8]) -> io::Result<usize> {
        self.turn()?;
        self.inner.read(buf)
    }
}

impl<T: Write> Write for Stutters<T> {
    fn write(&mut self, buf: &[u8]) -> io::Result<usize> {
        self.turn()?;
        self.inner.write(buf)
    }

    fn flush(&mut self) -> io::Result<()> {
        self.inner.flush()
    }
}

#[test]
fn adapters_reach_what_stands_behind_them(rt: HostRuntime) {
    let mut source = RealSource::new(Stutters {
        inner: b"hello".as_slice(),
        waits: false,
    });
    let text = read_whole(rt.alloc(), 5, &mut source)
        .ok()
        .flatten()
        .expect(&rt, "the text");
    assert!(rt; text.as_bytes() == b"hello".as_slice());

    let mut bytes = [0u8; 8];
    let mut sink = RealSink::new(Stutters {
        inner: bytes.as_mut_slice(),
        waits: false,
    });
    assert!(rt; write_all(&mut sink, b"help me") == Ok(()));
    assert!(rt; &bytes == b"help me\0");
}

// A writer that ends what each call wrote with `|`.
#[derive(Drop)]
struct Marks<'a> {
    calls: &'a mut [u8],
    count: usize,
}

impl<'a> Write for Marks<'a> {
    fn write(&mut self, buf: &[u8]) -> io::Result<usize> {
        let free = self.calls.len().saturating_sub(self.count);
        if buf.len() >= free {
            return Err(ErrorKind::StorageFull.into());
        }
        for byte in buf {
            self.put(*byte);
        }
        self.put(b'|');
        Ok(buf.len())
    }

    fn flush(&mut self) -> io::Result<()> {
        Ok(())
    }
}

impl<'a> Marks<'a> {
    // One byte more.
    fn put(&mut self, byte: u8) {
        if let Some(place) = self.calls.get_mut(self.count) {
            *place = byte;
            self.count = self.count.saturating_add(1);
        }
    }
}

#[test]
fn a_line_goes_out_with_its_end(rt: HostRuntime) {
    let mut calls = [b'.'; 16];
    let marks = Marks {
        calls: calls.as_mut_slice(),
        count: 0,
    };
    let mut sink = RealLines::new(rt.alloc(), marks).expect(&rt, "a line");
    let wrote = write_all(&mut sink, b"1 1 act").is_ok() && write_all(&mut sink, b"\n").is_ok();
    let open = write_all(&mut sink, b"2").is_ok();
    let failed = write_all(&mut sink, b"2 1 act\n").is_err();
    drop(sink);
    assert!(rt; wrote && open && failed);
    assert!(rt; &calls == b"1 1 act\n|.......");
}

// Why a file is not read; none where it is.
fn unread<F: Files>(
    alloc: Global,
    files: &mut F,
    name: &[u8],
) -> Result<Option<NoOpen>, WantOfMemory> {
    let name = Text::from_slice(alloc, name)?;
    match read_file(alloc, 5, &name, files) {
        Ok(_) => Ok(None),
        Err(fault) => Ok(Some(fault)),
    }
}

#[test]
fn files_of_the_system_are_opened_by_their_names(rt: HostRuntime) {
    let alloc = rt.alloc();
    let mut files = RealFiles::new(&rt);
    let missing = unread(alloc, &mut files, b"/dev/null.none").expect(&rt, "a name");
    let folder = unread(alloc, &mut files, b"/").expect(&rt, "a name");
    let unreadable = unread(alloc, &mut files, b"/dev/\xff").expect(&rt, "a name");
    assert!(rt; missing == Some(NoOpen::Missing));
    assert!(rt; folder == Some(NoOpen::Failed) && unreadable == Some(NoOpen::Failed));
    let empty = Text::from_slice(alloc, b"/dev/null").expect(&rt, "a name");
    let text = read_file(alloc, 5, &empty, &mut files)
        .ok()
        .flatten()
        .expect(&rt, "no byte");
    assert!(rt; text.is_empty());
}
