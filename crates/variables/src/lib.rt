// The table of the variables that are set, which is lent: variable w has the places of its name at 2 * w, the number of
// its values at 64 + w, and the places of value k at 96 + 2 * (16 * w + k). At most 32 are set, with 16 values each.
// Numbers, since it stands in the head that callers of C lend (sidluqethe_read).
#![tactic(auto)]

ghost use Rattle.std.specs.Prelude.{◌≡◌, min, ltb, length, get_or, if◌then◌else◌};
ghost use Rattle.scan.specs.Bytes.{span};
ghost use Rattle.pattern.specs.Table.{number_of};
ghost use Rattle.variables.specs.Added.{held_by, name_set, value_set};

use scan::{least, same_bytes, span};

// The number at a place of a lent table; 0 beyond its end.
pub fn cell(table: &[usize], i: usize) -> usize
    ensures { result ≡ get_or table.now i 0 }
{
    table.get(i).copied().unwrap_or(0)
}

// How many values variable w has.
pub fn value_count(vars: &[usize], w: usize) -> usize
    ensures { result ≡ (if ltb w 32 then held_by vars.now w else 0) }
{
    if w < 32 {
        least(16, cell(vars, 64 + w))
    } else {
        0
    }
}

// Variable w is named by what stands from start to before end in the text, and has no values.
pub fn with_name(vars: &mut [usize; 1120], w: usize, start: usize, end: usize)
    ensures { (length vars.old ≡ 1120) × (vars.new ≡ name_set vars.old w start end) }
{
    // A slice, whose length the proof knows.
    let cells = &mut vars[..];
    if 31 < w {
        return;
    }
    cells[2 * w] = start;
    cells[2 * w + 1] = end;
    cells[64 + w] = 0;
}

// One value more of variable w, from a to before e in the text.
pub fn with_value(vars: &mut [usize; 1120], w: usize, a: usize, e: usize)
    ensures { (length vars.old ≡ 1120) × (vars.new ≡ value_set vars.old w a e) }
{
    let cells = &mut vars[..];
    if w < 32 {
        let k = cells[64 + w];
        if k < 16 {
            let i = 96 + 2 * (16 * w + k);
            cells[i] = a;
            cells[i + 1] = e;
            cells[64 + w] = k + 1;
        }
    }
}

// The number of the variable whose name stands from start to end in the text: 1 more than its place in the table, 0 where it is not set.
pub fn named(text: &[u8], vars: &[usize], n: usize, start: usize, end: usize) -> usize
    ensures { result ≡ number_of text.now vars.now (min 32 n) (span text.now start end) }
{
    let name = span(text, start, end);
    for i in (0..least(32, n)).rev() {
        let w = 2 * i;
        if same_bytes(span(text, cell(vars, w), cell(vars, w + 1)), name) {
            return i + 1;
        }
    }
    0
}
