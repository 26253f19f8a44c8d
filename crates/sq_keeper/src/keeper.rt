//! The reading of lines from a source.
ghost use Rattle.std.specs.Prelude.{◌≡◌, ◌≤◌, ◌∷◌, ◌++◌, [], true, false};
ghost use Rattle.std.specs.Io.KnownBytes.{IsAtEnd};
ghost use Rattle.sq_keeper.specs.Handing.{Adds};
ghost use Rattle.sq_keeper.specs.Lines.{ReadsLines};
ghost use Rattle.sq_keeper.specs.Walk.{step_line, step_handed, closing, Walks};
ghost use Rattle.sq_keeper.specs.declared.desk.Handed.TheVariants as handed;
ghost use Rattle.sq_outside.specs.Causes.{Rose};

use crate::desk::{LineDesk, LineEnd};
use crate::line_buffer::LineBuffer;
use sq_base::ProcNo;
use sq_outside::Source;
use std::alloc::Global;
use std::sync::Wait;

/// At most this many bytes are read at a time.
const CHUNK: usize = 4096;

/// How the reading of lines ended.
#[derive(Clone, Copy)]
pub enum KeeperEnd {
    /// The input ended, and the desk learned that the process died.
    Ended,
    /// The source failed, and the desk learned that the process died.
    ReadFault,
    /// The desk wanted no more lines.
    Told,
    /// There was no memory for a line. Nothing was read or handed on.
    WantOfMemory,
}

/// Hands a line on, again as long as the desk has no memory for it. Answers whether it wants more lines.
pub fn hand<R: Wait, K: LineDesk>(rt: &R, proc: ProcNo, line: &[u8], desk: &mut K) -> bool
    ensures adds { Adds (K.handed desk.old) (K.handed desk.new)
        (handed.Line proc line.now ∷ closing proc result) }
    ensures later { K.refused desk.old ≤ K.refused desk.new }
    ensures told { result ≡ false → Rose (K.refused desk.old) (K.refused desk.new) }
    ensures passes { K.passes desk.old desk.new }
{
    for _ in rt.forever() {
        match desk.line(proc, line) {
            LineEnd::Go => return true,
            LineEnd::End => return false,
            LineEnd::WantOfMemory => {}
        }
    }
    unreachable!()
}

/// Takes one byte: it ends the line, which is handed on, or belongs to it.
fn take_byte<R: Wait, K: LineDesk>(
    rt: &R,
    proc: ProcNo,
    line: &mut LineBuffer,
    byte: u8,
    desk: &mut K,
) -> bool
    ensures adds { Adds (K.handed desk.old) (K.handed desk.new)
        (step_handed proc line.old byte ++ closing proc result) }
    ensures line { line.new ≡ step_line line.old byte }
    ensures later { K.refused desk.old ≤ K.refused desk.new }
    ensures told { result ≡ false → Rose (K.refused desk.old) (K.refused desk.new) }
    ensures ended { result ≡ false → byte ≡ 10 }
    ensures passes { K.passes desk.old desk.new }
{
    if byte != b'\n' {
        line.take(byte);
        return true;
    }
    let more = hand(rt, proc, line.as_bytes(), desk);
    line.clear();
    more
}

/// Takes bytes, up to the LF at which the desk wants no more lines.
fn take_bytes<R: Wait, K: LineDesk>(
    rt: &R,
    proc: ProcNo,
    line: &mut LineBuffer,
    bytes: &[u8],
    desk: &mut K,
) -> bool
    ensures walks { Walks proc line.old line.new bytes.now (K.handed desk.old) (K.handed desk.new)
        result }
    ensures later { K.refused desk.old ≤ K.refused desk.new }
    ensures told { result ≡ false → Rose (K.refused desk.old) (K.refused desk.new) }
    ensures passes { K.passes desk.old desk.new }
{
    for &byte in bytes {
        if !take_byte(rt, proc, line, byte, desk) {
            return false;
        }
    }
    true
}

/// Reads a process's lines to the end of its input, and hands them to the desk. It may wait as long as
/// the source gives nothing and the desk has no memory.
pub fn read_lines<R: Wait + Sync, S: Source, K: LineDesk>(
    rt: &R,
    alloc: Global,
    from: &mut S,
    proc: ProcNo,
    desk: &mut K,
) -> KeeperEnd
    ensures lines { ReadsLines proc (S.left from.old) (S.left from.new) (K.handed desk.old)
        (K.handed desk.new) result }
    ensures ended { result ≡ KeeperEnd.Ended → IsAtEnd (S.left from.new) }
    ensures fault { result ≡ KeeperEnd.ReadFault → Rose (S.faults from.old) (S.faults from.new) }
    ensures told { result ≡ KeeperEnd.Told → Rose (K.refused desk.old) (K.refused desk.new) }
    ensures memory { result ≡ KeeperEnd.WantOfMemory
        → (from.new ≡ from.old) × (desk.new ≡ desk.old) }
    ensures faults_later { S.faults from.old ≤ S.faults from.new }
    // The first read that fails ends the reading: where it ended otherwise, none failed.
    ensures quiet { (result ≡ KeeperEnd.ReadFault → ⊥) → S.faults from.new ≡ S.faults from.old }
    ensures refused_later { K.refused desk.old ≤ K.refused desk.new }
    ensures passes { K.passes desk.old desk.new }
{
    let Ok(mut line) = LineBuffer::new(alloc) else {
        return KeeperEnd::WantOfMemory;
    };
    let mut chunk = [0u8; CHUNK];
    for _ in rt.forever() {
        match from.read(&mut chunk) {
            Err(_) => {
                desk.died(proc);
                return KeeperEnd::ReadFault;
            }
            Ok(0) => {
                desk.died(proc);
                return KeeperEnd::Ended;
            }
            Ok(count) => {
                if !take_bytes(rt, proc, &mut line, &chunk[..count], desk) {
                    return KeeperEnd::Told;
                }
            }
        }
    }
    unreachable!()
}
