//! A page of output, which is gathered and then written at once.
ghost use Rattle.std.specs.Prelude.{◌≡◌, ◌++◌, ◌∷◌, ◌≤◌, [], ℕ, List, Option, OnOk, OnErr, IsErrOf};
ghost use Rattle.sq_outside.specs.Causes.{HasCause, Rose};
ghost use Rattle.sq_replay.specs.Runs.{HoldsFront, Wrote, WroteFront, WrotePart};

use sq_base::WantOfMemory;
use sq_outside::{Failed, Sink, write_all};

/// A page is written once it has so many bytes.
const PAGE: usize = 65_536;

/// Why a line was not put on a page, or the page not written.
#[derive(Clone, Copy)]
pub enum Unwritten {
    Failed,
    WantOfMemory,
}

/// Writes what a page holds, and empties it. Where that fails, the page stays, and it is not known which
/// front of it was written.
pub fn write_page<O: Sink>(page: &mut Vec<u8>, out: &mut O) -> Result<(), Failed>
    ensures ok { OnOk result
        ((base : Option (List ℕ)) (text : List ℕ)
        → Wrote base (O.contents out.old) page.old.items text
        → Wrote base (O.contents out.new) page.new.items text) }
    ensures empty { OnOk result (page.new.items ≡ []) }
    ensures err { OnErr result
        ((base : Option (List ℕ)) (text : List ℕ)
        → Wrote base (O.contents out.old) page.old.items text
        → WrotePart base (O.contents out.new) text) }
    ensures cause { HasCause (O.faults out.old) (O.faults out.new) result }
{
    match write_all(out, page.as_slice()) {
        Ok(()) => {}
        Err(Failed) => return Err(Failed),
    }
    page.clear();
    Ok(())
}

/// Puts a line on a page, without its LF, and writes the page where it is full.
pub fn put_line<O: Sink>(line: &[u8], page: &mut Vec<u8>, out: &mut O) -> Result<(), Unwritten>
    ensures ok { OnOk result
        ((base : Option (List ℕ)) (text : List ℕ)
        → Wrote base (O.contents out.old) page.old.items text
        → Wrote base (O.contents out.new) page.new.items (text ++ (line.now ++ 10 ∷ []))) }
    ensures failed { IsErrOf result Unwritten.Failed → (base : Option (List ℕ)) (text : List ℕ)
        → Wrote base (O.contents out.old) page.old.items text
        → WrotePart base (O.contents out.new) (text ++ (line.now ++ 10 ∷ [])) }
    ensures memory { IsErrOf result Unwritten.WantOfMemory
        → (base : Option (List ℕ)) (text : List ℕ)
        → Wrote base (O.contents out.old) page.old.items text
        → WroteFront base (O.contents out.new) page.new.items (text ++ (line.now ++ 10 ∷ [])) }
    ensures later { O.faults out.old ≤ O.faults out.new }
    ensures cause { IsErrOf result Unwritten.Failed → Rose (O.faults out.old) (O.faults out.new) }
    ensures quiet { (IsErrOf result Unwritten.Failed → ⊥) → O.faults out.new ≡ O.faults out.old }
{
    match add_line(line, page) {
        Ok(()) => {}
        Err(WantOfMemory) => return Err(Unwritten::WantOfMemory),
    }
    if page.len() < PAGE {
        return Ok(());
    }
    match write_page(page, out) {
        Ok(()) => Ok(()),
        Err(Failed) => Err(Unwritten::Failed),
    }
}

// Puts a line and its LF on a page, or a front of them where memory ran out.
fn add_line(line: &[u8], page: &mut Vec<u8>) -> Result<(), WantOfMemory>
    ensures ok { OnOk result (page.new.items ≡ page.old.items ++ (line.now ++ 10 ∷ [])) }
    ensures err { OnErr result (HoldsFront page.old.items page.new.items (line.now ++ 10 ∷ [])) }
{
    page.extend_from_slice(line)?;
    page.push(b'\n')?;
    Ok(())
}
