//! Tables of names, as literals of the code: what stands beside each name.
ghost use Rattle.std.specs.Prelude.{◌≡◌, map, bytes_eq};
ghost use Rattle.std.specs.List.{list_any};
ghost use Rattle.sq_base.specs.NameTables.{beside};

/// What stands beside the word in the table, where the word is a name of it; of several, the first
/// counts. A contract of a caller names the same table as a definition.
pub fn named<A: Copy>(mut table: &[(&[u8], A)], word: &[u8]) -> Option<A>
    ensures { result ≡ beside (map (λ row. (row.0.now, row.1)) table.entry.now) word.now }
{
    while let [row, rest @ ..] = table {
        if word == row.0 {
            return Some(row.1);
        }
        table = rest;
    }
    None
}

/// Whether the word is one of these names.
pub fn is_among(names: &[&[u8]], word: &[u8]) -> bool
    ensures { result ≡ list_any (λ name. bytes_eq word.now name.now) names.now }
{
    names.iter().any(|name| word == *name)
}
