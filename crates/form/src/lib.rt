// The form of patterns and values, and the names that they use.
#![tactic(auto)]

ghost use Rattle.std.specs.Prelude.{◌≡◌, List, ℕ, length, leb};
ghost use Rattle.scan.specs.Bytes.{every, span};
ghost use Rattle.pattern.specs.Items.{alternatives, good_part, good_item, value_form, pattern_form, names_part, names_item, value_names, pattern_names};
ghost use Rattle.pattern.specs.Expansions.{is_set};
ghost use Rattle.form.specs.Walks.{EveryPart, EveryItem, EveryAlternative};
ghost use Rattle.pattern.specs.Reads.{seen_part, seen_item};
ghost use Rattle.pattern.specs.Table.{env};

use ends::{item_end, literal_end, part_end, seek};
use parts::{item_at, part_at};
use pattern::{ItemRead, PartRead};
use scan::span;
use variables::named;

// Whether a test holds at each place of s where a part begins that is no literal by itself.
fn every_part<F: Fn(usize) -> bool>(s: &[u8], good: F) -> bool
    requires { F.IsAlwaysCallable good }
    ensures { EveryPart (F.post good) s.now result }
{
    let mut i = literal_end(s, 0);
    while i < s.len() {
        if !good(i) {
            return false;
        }
        i = literal_end(s, part_end(s, i));
    }
    true
}

// The same of the items.
fn every_item<F: Fn(usize) -> bool>(s: &[u8], good: F) -> bool
    requires { F.IsAlwaysCallable good }
    ensures { EveryItem (F.post good) s.now result }
{
    let mut i = literal_end(s, 0);
    while i < s.len() {
        if !good(i) {
            return false;
        }
        i = literal_end(s, item_end(s, i));
    }
    true
}

// Whether a test holds of each alternative between a and e, told by the places where it starts and ends.
fn every_alternative<F: Fn(usize, usize) -> bool>(text: &[u8], a: usize, e: usize, good: F) -> bool
    requires { F.IsAlwaysCallable good }
    ensures { EveryAlternative (F.post good) text.now a e result }
{
    let s = span(text, a, e);
    let mut i = 0;
    loop {
        let j = seek(s, i, b',');
        if !good(a + i, a + j) {
            return false;
        }
        if s.len() <= j {
            return true;
        }
        i = j + 1;
    }
}

// Whether a part is a piece or the use of a variable.
fn good_part(p: PartRead) -> bool
    ensures { (text : List ℕ) → result ≡ good_part (seen_part text p) }
{
    !matches!(p, PartRead::Bad)
}

// Whether the bytes from a to e have a value's form.
pub fn value_form(text: &[u8], a: usize, e: usize) -> bool
    ensures { result ≡ value_form (span text.now a e) }
{
    every_part(span(text, a, e), |i| good_part(part_at(text, a, e, i)))
}

// Whether each alternative from a to e has a value's form.
fn alternatives_form(text: &[u8], a: usize, e: usize) -> bool
    ensures { result ≡ every value_form (alternatives (span text.now a e)) }
{
    every_alternative(text, a, e, |from, to| value_form(text, from, to))
}

// Whether a comma parts the bytes from a to e.
fn is_parted(text: &[u8], a: usize, e: usize) -> bool
    ensures { result ≡ leb 2 (length (alternatives (span text.now a e))) }
{
    let s = span(text, a, e);
    seek(s, 0, b',') < s.len()
}

// Whether an item is a good part, or two or more good alternatives.
fn good_item(text: &[u8], p: ItemRead) -> bool
    ensures { result ≡ good_item (seen_item text.now p) }
{
    match p {
        ItemRead::Single(q) => good_part(q),
        ItemRead::Among { start, end } => is_parted(text, start, end)
            & alternatives_form(text, start, end),
    }
}

// Whether the bytes from a to e have a pattern's form.
pub fn pattern_form(text: &[u8], a: usize, e: usize) -> bool
    ensures { result ≡ pattern_form (span text.now a e) }
{
    every_item(
        span(text, a, e),
        |i| good_item(text, item_at(text, a, e, i)),
    )
}

// Whether the name that a part uses is set.
fn known_part(text: &[u8], vars: &[usize], n: usize, p: PartRead) -> bool
    ensures { result ≡ names_part (is_set (env text.now vars.now n)) (seen_part text.now p) }
{
    match p {
        PartRead::Is(_) => true,
        PartRead::Use { start, end } => named(text, vars, n, start, end) != 0,
        PartRead::Bad => true,
    }
}

// Whether every name that the value from a to e uses is set.
pub fn value_names(text: &[u8], vars: &[usize], n: usize, a: usize, e: usize) -> bool
    ensures { result ≡ value_names (is_set (env text.now vars.now n)) (span text.now a e) }
{
    every_part(
        span(text, a, e),
        |i| known_part(text, vars, n, part_at(text, a, e, i)),
    )
}

// Whether every name that the alternatives from a to e use is set.
fn alternatives_names(text: &[u8], vars: &[usize], n: usize, a: usize, e: usize) -> bool
    ensures { result ≡ every (value_names (is_set (env text.now vars.now n))) (alternatives (span text.now a e)) }
{
    every_alternative(text, a, e, |from, to| value_names(text, vars, n, from, to))
}

// Whether every name that an item uses is set.
fn known_item(text: &[u8], vars: &[usize], n: usize, p: ItemRead) -> bool
    ensures { result ≡ names_item (is_set (env text.now vars.now n)) (seen_item text.now p) }
{
    match p {
        ItemRead::Single(q) => known_part(text, vars, n, q),
        ItemRead::Among { start, end } => alternatives_names(text, vars, n, start, end),
    }
}

// Whether every name that the pattern from a to e uses is set.
pub fn pattern_names(text: &[u8], vars: &[usize], n: usize, a: usize, e: usize) -> bool
    ensures { result ≡ pattern_names (is_set (env text.now vars.now n)) (span text.now a e) }
{
    every_item(
        span(text, a, e),
        |i| known_item(text, vars, n, item_at(text, a, e, i)),
    )
}
