// The sizes of the parts, values, items and patterns of a text by a table of the sizes of the variables.
#![tactic(auto)]

ghost use Rattle.std.specs.Prelude.{◌≡◌, ℕ, ◌+◌, ◌≤◌, ◌<◌, List, [], ◌∷◌, map, length};
ghost use Rattle.scan.specs.Bytes.{span};
ghost use Rattle.pattern.specs.Pieces.{Byte};
ghost use Rattle.pattern.specs.Items.{alternatives};
ghost use Rattle.pattern.specs.Expansions.{is_slash};
ghost use Rattle.pattern.specs.Codes.{decode};
ghost use Rattle.pattern.specs.Reads.{code_of, seen_part, seen_item};
ghost use Rattle.pattern.specs.Table.{values_of};
ghost use Rattle.measure.specs.Walks.{Ahead, Sized};
ghost use Rattle.sizes.specs.Sizes.{no_size, size_of, size_at, with_size, Known};
ghost use Rattle.sizes.specs.Numbered.{part_by, value_by, one_by, item_by, pattern_by};

use ends::{item_end, literal_end, part_end, seek};
use parts::{item_at, part_at};
use pattern::{ItemRead, PartRead, PieceRead};
use scan::{least, span};
use sizes::{Size, plus, times};
use variables::{cell, named};

// The size of no expansion in row 0, then that of each variable; row r has its count at 4 * r, its longest at 4 * r + 1,
// and whether it is empty and slashed, as 0 or 1, at 4 * r + 2 and 4 * r + 3.
#[derive(Clone, Copy)]
pub struct Sizes {
    pub table: [usize; 132],
}

fn no_size() -> Size
    ensures { result ≡ no_size }
{
    Size {
        count: 0,
        longest: 0,
        empty: false,
        slashed: true,
    }
}

fn is_slash(p: PieceRead) -> bool
    ensures { (text : List ℕ) → result ≡ is_slash (decode text (code_of p)) }
{
    match p {
        PieceRead::Byte(b) => b == b'/',
        _ => false,
    }
}

// Row r of a table of sizes.
fn size_at(sizes: &[usize; 132], r: usize) -> Size
    requires { r < 33 }
    ensures { result ≡ size_at sizes.now r }
{
    Size {
        count: sizes[4 * r],
        longest: sizes[4 * r + 1],
        empty: sizes[4 * r + 2] == 1,
        slashed: sizes[4 * r + 3] == 1,
    }
}

// A size put into row r.
fn put_size(sizes: &mut [usize; 132], r: usize, z: Size)
    requires { r < 33 }
    ensures { sizes.new ≡ with_size sizes.old r z }
{
    sizes[4 * r] = z.count;
    sizes[4 * r + 1] = z.longest;
    sizes[4 * r + 2] = z.empty as usize;
    sizes[4 * r + 3] = z.slashed as usize;
}

// The size of a part.
pub fn part_size(text: &[u8], vars: &[usize], n: usize, sizes: &[usize; 132], p: PartRead) -> Size
    ensures { result ≡ (part_by text.now vars.now n sizes.now (seen_part text.now p)).size }
{
    match p {
        PartRead::Is(q) => Size {
            count: 1,
            longest: 1,
            empty: false,
            slashed: is_slash(q),
        },
        PartRead::Use { start, end } => {
            let r = named(text, vars, n, start, end);
            size_at(sizes, r)
        }
        PartRead::Bad => no_size(),
    }
}

// The size of the literals from a place to before another.
fn literals_size(s: &[u8], at: usize, end: usize) -> Size
    requires { end ≤ length s.now }
    ensures { result ≡ size_of (map Byte (span s.now at end) ∷ []) }
{
    if end <= at {
        return Size {
            count: 1,
            longest: 0,
            empty: true,
            slashed: true,
        };
    }
    Size {
        count: 1,
        longest: least(1025, end - at),
        empty: false,
        slashed: s[at] == b'/',
    }
}

// The size of all that stands in s: literals, and what is no literal by itself, of which `next` tells where it ends and `one` its size.
fn sized<N: Fn(usize) -> usize, F: Fn(usize) -> Size>(s: &[u8], next: N, one: F) -> Size
    requires next_calls { N.IsAlwaysCallable next }
    requires one_calls { F.IsAlwaysCallable one }
    requires ahead { Ahead (N.post next) s.now }
    ensures { Sized (N.post next) (F.post one) s.now result }
{
    let mut at = literal_end(s, 0);
    let mut size = literals_size(s, 0, at);
    while at < s.len() {
        let z = one(at);
        let from = next(at);
        at = literal_end(s, from);
        size = times(size, times(z, literals_size(s, from, at)));
    }
    size
}

// The size of a value or an alternative.
pub fn value_size(
    text: &[u8],
    vars: &[usize],
    n: usize,
    sizes: &[usize; 132],
    a: usize,
    e: usize,
) -> Size
    ensures { result ≡ (value_by text.now vars.now n sizes.now (span text.now a e)).size }
{
    let s = span(text, a, e);
    sized(
        s,
        |i| part_end(s, i),
        |i| part_size(text, vars, n, sizes, part_at(text, a, e, i)),
    )
}

// The size of the variable w by the sizes of those before it.
fn variable_size(text: &[u8], vars: &[usize], w: usize, sizes: &[usize; 132]) -> Size
    requires { w < 32 }
    ensures { result ≡ (one_by text.now vars.now w sizes.now (values_of text.now vars.now w)).size }
{
    let m = least(16, cell(vars, 64 + w));
    let mut size = no_size();
    for k in 0..m {
        let j = 96 + 2 * (16 * w + k);
        let one = value_size(text, vars, w, sizes, cell(vars, j), cell(vars, j + 1));
        size = plus(size, one);
    }
    size
}

// The sizes of the first n variables, at most 32.
pub fn sizes_of(text: &[u8], vars: &[usize], n: usize) -> Sizes
    ensures { Known text.now vars.now n result.table }
{
    let mut table = [0usize; 132];
    put_size(&mut table, 0, no_size());
    let top = least(32, n);
    for w in 0..top {
        let size = variable_size(text, vars, w, &table);
        put_size(&mut table, w + 1, size);
    }
    Sizes { table }
}

// The size of the alternatives that commas part.
fn among_size(
    text: &[u8],
    vars: &[usize],
    n: usize,
    sizes: &[usize; 132],
    a: usize,
    e: usize,
) -> Size
    ensures { result ≡ (one_by text.now vars.now n sizes.now (alternatives (span text.now a e))).size }
{
    let s = span(text, a, e);
    let mut size = no_size();
    let mut i = 0;
    loop {
        let j = seek(s, i, b',');
        size = plus(size, value_size(text, vars, n, sizes, a + i, a + j));
        if s.len() <= j {
            return size;
        }
        i = j + 1;
    }
}

// The size of an item.
pub fn item_size(text: &[u8], vars: &[usize], n: usize, sizes: &[usize; 132], i: ItemRead) -> Size
    ensures { result ≡ (item_by text.now vars.now n sizes.now (seen_item text.now i)).size }
{
    match i {
        ItemRead::Single(p) => part_size(text, vars, n, sizes, p),
        ItemRead::Among { start, end } => among_size(text, vars, n, sizes, start, end),
    }
}

// The size of the pattern from a to before e.
pub fn pattern_size(
    text: &[u8],
    vars: &[usize],
    n: usize,
    sizes: &[usize; 132],
    a: usize,
    e: usize,
) -> Size
    ensures { result ≡ (pattern_by text.now vars.now n sizes.now (span text.now a e)).size }
{
    let s = span(text, a, e);
    sized(
        s,
        |i| item_end(s, i),
        |i| item_size(text, vars, n, sizes, item_at(text, a, e, i)),
    )
}
