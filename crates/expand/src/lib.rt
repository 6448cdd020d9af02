// One expansion of a pattern, by its number, written as codes to a lent buffer.
#![tactic(auto)]

ghost use Rattle.std.specs.Prelude.{◌≡◌, List, ◌∷◌, [], map, ℕ, ◌+◌, ◌≤◌, ◌<◌, length, if◌then◌else◌};
ghost use Rattle.scan.specs.Bytes.{span};
ghost use Rattle.pattern.specs.Pieces.{Byte};
ghost use Rattle.pattern.specs.Items.{alternatives};
ghost use Rattle.pattern.specs.Places.{item_at};
ghost use Rattle.pattern.specs.Codes.{decode};
ghost use Rattle.pattern.specs.Reads.{code_in, seen_item, seen_part};
ghost use Rattle.pattern.specs.Table.{values_of};
ghost use Rattle.sizes.specs.Numbered.{low_of, high_of, part_by, value_by, one_by, item_by, pattern_by};
ghost use Rattle.expand.specs.Write.{text_fits, Asked, Wrote, Drafted};

use codes::{Held, hold};
use ends::{item_end, literal_end, part_end, seek};
use measure::{item_size, part_size, value_size};
use parts::{item_at, part_at, piece_code};
use pattern::{ItemRead, PartRead};
use scan::{least, span};
use variables::{cell, named};

// A value or alternative, and the number of one of its expansions.
#[derive(Clone, Copy)]
pub struct Choice {
    pub start: usize,
    pub end: usize,
    pub digit: usize,
}

// A code at a place of the buffer, if there is room; the next place.
fn push(out: &mut [u32], m: usize, code: u32) -> usize
    requires { m ≤ length out.old }
    ensures { (text : List ℕ) → Wrote text out.old m out.new result (decode text code ∷ []) }
{
    if m < out.len() {
        out[m] = code;
        return m + 1;
    }
    m
}

// Bytes as literals, as far as there is room; the next place.
fn push_run(out: &mut [u32], m: usize, s: &[u8]) -> usize
    requires { m ≤ length out.old }
    ensures { (text : List ℕ) → Wrote text out.old m out.new result (map Byte s.now) }
{
    let mut w = m;
    for b in s {
        w = push(out, w, *b as u32);
    }
    w
}

// The low digit of a number to base c, and what is left of it; to base 1, that of most parts, nothing is divided.
fn low(d: usize, c: usize) -> usize
    ensures { result ≡ low_of d c }
{
    if c <= 1 {
        return 0;
    }
    d % c
}

fn high(d: usize, c: usize) -> usize
    ensures { result ≡ high_of d c }
{
    if c == 1 {
        return d;
    }
    if c == 0 {
        return 0;
    }
    d / c
}

// The value of the variable w that holds expansion d of the variable.
fn pick_value(text: &[u8], vars: &[usize], w: usize, sizes: &[usize; 132], d: usize) -> Choice
    requires { w < 32 }
    ensures { (value_by text.now vars.now w sizes.now (span text.now result.start result.end)).nth result.digit
        ≡ (one_by text.now vars.now w sizes.now (values_of text.now vars.now w)).nth d }
{
    let m = least(16, cell(vars, 64 + w));
    let mut left = d;
    for k in 0..m {
        let j = 96 + 2 * (16 * w + k);
        let start = cell(vars, j);
        let end = cell(vars, j + 1);
        let size = value_size(text, vars, w, sizes, start, end);
        let c = size.count;
        if left < c {
            return Choice {
                start: start,
                end: end,
                digit: left,
            };
        }
        left -= c;
    }
    Choice {
        start: 0,
        end: 0,
        digit: 0,
    }
}

// The alternative that holds expansion d of those that commas part. Its values are found by a cursor that jumps, those of a variable
// in a table: what the two loops share is the test of what is left alone.
fn pick_alternative(
    text: &[u8],
    vars: &[usize],
    n: usize,
    sizes: &[usize; 132],
    a: usize,
    e: usize,
    d: usize,
) -> Choice
    ensures { (value_by text.now vars.now n sizes.now (span text.now result.start result.end)).nth result.digit
        ≡ (one_by text.now vars.now n sizes.now (alternatives (span text.now a e))).nth d }
{
    let s = span(text, a, e);
    let mut left = d;
    let mut i = 0;
    loop {
        let j = seek(s, i, b',');
        let start = a + i;
        let end = a + j;
        let size = value_size(text, vars, n, sizes, start, end);
        let count = size.count;
        if left < count {
            return Choice {
                start: start,
                end: end,
                digit: left,
            };
        }
        if s.len() <= j {
            return Choice {
                start: 0,
                end: 0,
                digit: 0,
            };
        }
        left -= count;
        i = j + 1;
    }
}

// Expansion d of a part.
#[cycle(write_part_write_value)]
fn write_part(
    n: usize,
    text: &[u8],
    vars: &[usize],
    sizes: &[usize; 132],
    p: PartRead,
    d: usize,
    out: &mut [u32],
    m: usize,
) -> usize
    requires { Asked text.now out.old m × (code_in p ≤ 65536 + length text.now) }
    ensures { Wrote text.now out.old m out.new result ((part_by text.now vars.now n sizes.now (seen_part text.now p)).nth d) }
{
    match p {
        PartRead::Is(q) => push(out, m, piece_code(q)),
        PartRead::Use { start, end } => {
            let r = named(text, vars, n, start, end);
            if r == 0 {
                return m;
            }
            let c = pick_value(text, vars, r - 1, sizes, d);
            write_value(r - 1, text, vars, sizes, c.start, c.end, c.digit, out, m)
        }
        PartRead::Bad => m,
    }
}

// Expansion d of a value or alternative.
#[cycle(write_part_write_value)]
fn write_value(
    n: usize,
    text: &[u8],
    vars: &[usize],
    sizes: &[usize; 132],
    a: usize,
    e: usize,
    d: usize,
    out: &mut [u32],
    m: usize,
) -> usize
    requires { Asked text.now out.old m }
    ensures { Wrote text.now out.old m out.new result ((value_by text.now vars.now n sizes.now (span text.now a e)).nth d) }
{
    let s = span(text, a, e);
    let mut left = d;
    let mut w = m;
    let mut at = 0;
    while at < s.len() {
        let p = part_at(text, a, e, at);
        let size = part_size(text, vars, n, sizes, p);
        let c = size.count;
        w = write_part(n, text, vars, sizes, p, low(left, c), out, w);
        left = high(left, c);
        let next = part_end(s, at);
        at = literal_end(s, next);
        w = push_run(out, w, &s[next..at]);
    }
    w
}

// Expansion d of the item at a place of the span from a to e, as it was read.
fn write_item(
    n: usize,
    text: &[u8],
    vars: &[usize],
    sizes: &[usize; 132],
    a: usize,
    e: usize,
    at: usize,
    i: ItemRead,
    d: usize,
    out: &mut [u32],
    m: usize,
) -> usize
    requires { Asked text.now out.old m × (seen_item text.now i ≡ item_at (span text.now a e) at) }
    ensures { Wrote text.now out.old m out.new result ((item_by text.now vars.now n sizes.now (item_at (span text.now a e) at)).nth d) }
{
    match i {
        ItemRead::Single(_) => {
            let p = part_at(text, a, e, at);
            write_part(n, text, vars, sizes, p, d, out, m)
        }
        ItemRead::Among { start, end } => {
            let c = pick_alternative(text, vars, n, sizes, start, end, d);
            write_value(n, text, vars, sizes, c.start, c.end, c.digit, out, m)
        }
    }
}

// Expansion d of the pattern from a to before e, as far as there is room, where a / stands before it, or not: how many codes were
// written. It is given up, and None, where one of its first literals differs from the path. Of a text too long nothing is written.
pub fn write_pattern(
    text: &[u8],
    vars: &[usize],
    n: usize,
    sizes: &[usize; 132],
    a: usize,
    e: usize,
    d: usize,
    slash: bool,
    path: &[u8],
    out: &mut [u32],
) -> Option<usize>
    ensures { Drafted text.now out.old out.new slash path.now result
        (if text_fits text.now then (pattern_by text.now vars.now n sizes.now (span text.now a e)).nth d else []) }
{
    if 65535 < text.len() {
        return Some(0);
    }
    let s = span(text, a, e);
    let mut held = Held {
        at: 0,
        slash,
        wild: false,
        gone: false,
    };
    let mut left = d;
    let mut w = 0;
    let mut at = 0;
    while at < s.len() {
        let i = item_at(text, a, e, at);
        let size = item_size(text, vars, n, sizes, i);
        let c = size.count;
        let from = w;
        w = write_item(n, text, vars, sizes, a, e, at, i, low(left, c), out, w);
        let next = item_end(s, at);
        at = literal_end(s, next);
        w = push_run(out, w, &s[next..at]);
        held = hold(out, from, w, held, path);
        if held.gone {
            return None;
        }
        left = high(left, c);
    }
    Some(w)
}
