// Rows of equal width in a lent slice of words, in order of their first words, the keys.
#![tactic(auto)]

ghost use Rattle.std.specs.Prelude.{◌+◌, ◌*◌, ◌≤◌, ◌<◌, length};
ghost use Rattle.rows.specs.Rows.{rows_at, Rising};
ghost use Rattle.rows.specs.Change.{Room, Place, Put, Inserted};

// How many of `count` rows have keys up to this one, and so stand before a row of this key. The search
// starts at the last row: a key that is greater than all is found at once.
pub fn place(words: &[u32], base: usize, width: usize, count: usize, key: u32) -> usize
    requires { (0 < width) × (base + width * count ≤ length words.now) × Rising (rows_at words.now base width count) }
    ensures { Place words.now base width count key result }
{
    for i in (0..count).rev() {
        if words[base + width * i] <= key {
            return i + 1;
        }
    }
    0
}

// Puts a row among `count` rows, with room for one more.
fn put(words: &mut [u32], base: usize, count: usize, row: &[u32])
    requires { Room words.old base count (count + 1) row.now }
    ensures { Put words.old words.new base count row.now }
{
    let width = row.len();
    let at = base + width * place(words, base, width, count, row[0]);
    words.copy_within(at..base + width * count, at + width);
    // One word a turn: for `copy_from_slice` an archive for C would need `memmove` from outside.
    for i in 0..width {
        words[at + i] = row[i];
    }
}

// Puts a row among `count` rows from `base` on, by its key, behind those of the same key, and keeps
// the first `cap` of them. Returns how many there are then. The row's length is the rows' width.
pub fn insert(words: &mut [u32], base: usize, count: usize, cap: usize, row: &[u32]) -> usize
    requires { Room words.old base count cap row.now }
    ensures { Inserted words.old words.new base count cap row.now result }
{
    if count < cap {
        put(words, base, count, row);
        return count + 1;
    }
    if count == 0 {
        return 0;
    }
    if words[base + row.len() * (count - 1)] <= row[0] {
        return count;
    }
    put(words, base, count - 1, row);
    count
}
