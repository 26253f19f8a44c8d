//! What Connection lists, where it lists much.
ghost use Rattle.std.specs.Prelude.{◌≡◌, ◌++◌, ◌∷◌, [], ℕ, List, true, false, Some, None, if◌then◌else◌, bytes_eq, map, IfOk, OnOk};
ghost use Rattle.sq_base.specs.declared.requests.Field.{Field};
ghost use Rattle.sq_message.specs.FieldNames.{is_one_of};
ghost use Rattle.sq_message.specs.Marks.{mark_at, mark_of, marked_if, names_some, IsMarked};

use sq_base::{Field, Text, WantOfMemory};
use sq_rules::lowered;
use std::alloc::Global;
use std::collections::BTreeMap;
use std::marker::Model;

// So many options are compared with each field as they are.
const FEW: usize = 128;

// Names of fields in lower case, and whether an option was of that name.
#[derive(Drop)]
struct Marks {
    map: BTreeMap<Text, bool>,
}

impl Model for Marks {
    ghost use Rattle.std.specs.Prelude.{List, ℕ, Bool};

    ghost Value = { List (List ℕ × Bool) };

    ghost view = { λ m. m.map.entries };
}

impl Marks {
    fn new(alloc: Global) -> Marks
        ensures { (key : List ℕ) → mark_at result key ≡ None }
    {
        Marks {
            map: BTreeMap::new(alloc),
        }
    }

    fn get(&self, key: &Text) -> Option<bool>
        ensures { result ≡ mark_at self.now key.now }
    {
        self.map.get(key).copied()
    }

    fn put(&mut self, key: Text, mark: bool) -> Result<(), WantOfMemory>
        ensures { OnOk result
            ((k : List ℕ) → mark_at self.new k
            ≡ (if bytes_eq key k then Some mark else mark_at self.old k)) }
    {
        let _was = self.map.insert(key, mark)?;
        Ok(())
    }
}

// The names of these fields; no option was of any of them.
fn names_of(alloc: Global, fields: &[Field]) -> Result<Marks, WantOfMemory>
    ensures { IfOk result
        (λ m. (name : List ℕ) → mark_of m name ≡ marked_if (names_some fields.now name) false) }
{
    let mut marks = Marks::new(alloc);
    for field in fields {
        let key = lowered(alloc, field.name.as_bytes())?;
        marks.put(key, false)?;
    }
    Ok(marks)
}

// Keeps an option if it is the first one of the name of a field.
fn keep_first<'a>(
    alloc: Global,
    marks: &mut Marks,
    kept: &mut Vec<&'a [u8]>,
    option: &'a [u8],
) -> Result<(), WantOfMemory>
    ensures { OnOk result
        ((fields : List Field) (options : List (List ℕ))
        → IsMarked fields marks.old (map (λ o. o.now) kept.old.items) options
        → IsMarked fields marks.new (map (λ o. o.now) kept.new.items)
        (options ++ option.now ∷ [])) }
{
    let key = lowered(alloc, option)?;
    match marks.get(&key) {
        Some(false) => {
            marks.put(key, true)?;
            kept.push(option)?;
            Ok(())
        }
        Some(true) => Ok(()),
        None => Ok(()),
    }
}

/// Of many options those that name a field, each once, and few as they are: so a field is compared with few,
/// however many there are.
pub(crate) fn telling<'a>(
    alloc: Global,
    fields: &[Field],
    options: Vec<&'a [u8]>,
) -> Result<Vec<&'a [u8]>, WantOfMemory>
    ensures { IfOk result
        (λ os. (name : List ℕ) → names_some fields.now name ≡ true
        → is_one_of (map (λ o. o.now) os.items) name
        ≡ is_one_of (map (λ o. o.now) options.entry.items) name) }
{
    if options.len() <= FEW {
        return Ok(options);
    }
    let mut marks = names_of(alloc, fields)?;
    let mut kept = Vec::new(alloc);
    for option in options.as_slice() {
        keep_first(alloc, &mut marks, &mut kept, option)?;
    }
    Ok(kept)
}
