//! Tables of a fixed length, of which the first entries count.
ghost use Rattle.std.specs.Prelude.{◌≡◌, ◌≤◌, length, take};
ghost use Rattle.packing.specs.Tables.{over};

/// The first entries of a table, as many as are counted; all of it where it has no more.
pub(crate) fn front<T, const N: usize>(table: &[T; N], count: usize) -> &[T]
    ensures entries { result.now ≡ take count table.now }
    ensures few { length result.now ≤ N }
{
    table.get(..count).unwrap_or(table)
}

/// A table with these entries at its front.
pub(crate) fn with_front<T: Copy, const N: usize>(blank: [T; N], entries: &[T]) -> [T; N]
    requires { length entries.now ≤ N }
    ensures { result ≡ over entries.now blank }
{
    let mut table = blank;
    table[..entries.len()].copy_from_slice(entries);
    table
}
