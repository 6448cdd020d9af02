// A whole pattern against a path: every expansion is tried.
#![tactic(auto)]

ghost use Rattle.std.specs.Prelude.{◌≡◌, true, false, ◌&&◌, List, map, take, if◌then◌else◌, Some};
ghost use Rattle.scan.specs.Bytes.{holds, span};
ghost use Rattle.pattern.specs.Codes.{decode};
ghost use Rattle.pattern.specs.Expansions.{Variable};
ghost use Rattle.pattern.specs.Table.{env};
ghost use Rattle.sizes.specs.Numbered.{pattern_by};
ghost use Rattle.expand.specs.Write.{text_fits};
ghost use Rattle.matcher.specs.Match.{matches_some};
ghost use Rattle.matcher.specs.Walk.{path_fits};
ghost use Rattle.front.specs.Front.{lead_of};
ghost use Rattle.direct.specs.declared.Outcome.TheVariants as outcome;
ghost use Rattle.glob.specs.Glob.{Hit, matched_of, matched_by, matched_at, matched_all, matched_behind, matched_in};

use choices::may_open;
use codes::{is_literal, join_slashes};
use direct::{Outcome, compare};
use expand::write_pattern;
use faults::pattern_fault;
use front::{Led, lead, lead_far};
use measure::{pattern_size, sizes_of};
use scan::{holds_byte, span};

// How many codes the buffer has that expansions are written to; it is cleared once for all of them. Few are longer behind their front.
const SHORT: usize = 128;

// How many choices of a pattern are held to a path before anything is expanded.
const CHOICES: usize = 2;

// Whether some expansion matches, and whether one of literals only does. No enum of three: `matched_of` gives each of the two by a
// definition of its own, and the clauses of weigh, asking and sidluqethe (`weighed_by`, `match_by`, `match_number`) read them one by one.
#[derive(Clone, Copy)]
pub struct Matched {
    pub some: bool,
    pub exact: bool,
}

// Nothing is matched.
const NONE: Matched = Matched {
    some: false,
    exact: false,
};

// The first codes of a buffer, as many as counted, against a path, where a / stands before both, or not.
fn match_codes(text: &[u8], codes: &mut [u32], count: usize, slash: bool, path: &[u8]) -> Matched
    requires { path_fits path.now ≡ true }
    ensures { result ≡ matched_by slash (map (decode text.now) (take count codes.old)) path.now }
{
    let literal = is_literal(codes, count);
    let left = join_slashes(codes, count, slash);
    let some = matcher::matched(text, codes, left, path);
    Matched {
        some: some,
        exact: literal & some,
    }
}

// Expansion d of the pattern from a to before e against a path, where a / stands before it, or not, of up to 1,024 pieces.
fn match_long(
    text: &[u8],
    vars: &[usize],
    n: usize,
    sizes: &[usize; 132],
    a: usize,
    e: usize,
    d: usize,
    slash: bool,
    path: &[u8],
) -> Matched
    requires { (text_fits text.now && path_fits path.now) ≡ true }
    ensures { result ≡ matched_at slash (pattern_by text.now vars.now n sizes.now (span text.now a e)) path.now d }
{
    let mut codes = [0u32; 1024];
    let Some(count) = write_pattern(text, vars, n, sizes, a, e, d, slash, path, &mut codes) else {
        return Matched {
            some: false,
            exact: false,
        };
    };
    match_codes(text, &mut codes, count, slash, path)
}

// The same of any expansion: its codes are written over a lent buffer, and one that fills it is written anew. Where one of its first
// literals differs from the path it does not match.
fn match_expansion(
    text: &[u8],
    vars: &[usize],
    n: usize,
    sizes: &[usize; 132],
    a: usize,
    e: usize,
    d: usize,
    slash: bool,
    path: &[u8],
    codes: &mut [u32; SHORT],
) -> Matched
    requires { (text_fits text.now && path_fits path.now) ≡ true }
    ensures { result ≡ matched_at slash (pattern_by text.now vars.now n sizes.now (span text.now a e)) path.now d }
{
    let Some(count) = write_pattern(text, vars, n, sizes, a, e, d, slash, path, codes) else {
        return Matched {
            some: false,
            exact: false,
        };
    };
    if count < SHORT {
        return match_codes(text, codes, count, slash, path);
    }
    match_long(text, vars, n, sizes, a, e, d, slash, path)
}

// Each expansion in turn, up to the first of literals only that matches.
fn match_expansions(
    text: &[u8],
    vars: &[usize],
    n: usize,
    sizes: &[usize; 132],
    a: usize,
    e: usize,
    slash: bool,
    path: &[u8],
) -> Matched
    requires { (text_fits text.now && path_fits path.now) ≡ true }
    ensures { result ≡ matched_all slash (pattern_by text.now vars.now n sizes.now (span text.now a e)) path.now }
{
    let count = pattern_size(text, vars, n, sizes, a, e).count;
    let mut codes = [0u32; SHORT];
    let mut some = false;
    for d in 0..count {
        let m = match_expansion(text, vars, n, sizes, a, e, d, slash, path, &mut codes);
        if m.exact {
            return m;
        }
        some = some | m.some;
    }
    Matched {
        some: some,
        exact: false,
    }
}

// Whether text and path are short enough.
fn both_fit(text: &[u8], path: &[u8]) -> bool
    ensures { result ≡ (text_fits text.now && path_fits path.now) }
{
    (text.len() <= 65535) & (path.len() <= 4095)
}

// How many variables bear on the pattern from a to before e: none where it holds no @.
fn used(text: &[u8], n: usize, a: usize, e: usize) -> usize
    ensures { result ≡ (if holds 64 (span text.now a e) then n else 0) }
{
    if holds_byte(span(text, a, e), b'@') {
        return n;
    }
    0
}

// The pattern of a text from a to before e, and a path that begins with its front, both short enough.
#[derive(Clone, Copy)]
struct Begun<'a> {
    text: &'a [u8],
    a: usize,
    e: usize,
    path: &'a [u8],
    led: Led,
    ghost fits: { (text_fits text.now && path_fits path.now) ≡ true },
    ghost begins: { lead_of false (span text.now a e) path.now ≡ Some led },
}

impl Begun<'_> {
    // Each expansion of what stands behind the front, against the path behind it, by a table of the sizes of the first n variables.
    fn match_behind(self, vars: &[usize], n: usize, sizes: &[usize; 132]) -> Matched
        ensures { result ≡ matched_behind self.entry.text.now vars.now n sizes.now (span self.entry.text.now self.entry.a self.entry.e) self.entry.path.now }
    {
        let l = self.led;
        let start = self.a + l.len;
        let rest = &self.path[l.len..];
        match_expansions(self.text, vars, n, sizes, start, self.e, l.slash, rest)
    }

    // What the pattern says of the path; it is judged where something of it matches.
    fn match_judged(self, vars: &[usize], n: usize) -> Matched
        ensures { result ≡ matched_of self.entry.text.now (env self.entry.text.now vars.now n) (span self.entry.text.now self.entry.a self.entry.e) self.entry.path.now }
    {
        let sizes = sizes_of(self.text, vars, n);
        let m = self.match_behind(vars, n, &sizes.table);
        if m.some {
            if pattern_fault(self.text, vars, n, &sizes.table, self.a, self.e) == 0 {
                return m;
            }
        }
        NONE
    }

    // The same: nothing is expanded where what follows cannot begin with the pattern's first choices.
    fn match_led(self, vars: &[usize], n: usize) -> Matched
        ensures { result ≡ matched_of self.entry.text.now (env self.entry.text.now vars.now n) (span self.entry.text.now self.entry.a self.entry.e) self.entry.path.now }
    {
        let l = self.led;
        let start = self.a + l.len;
        let rest = &self.path[l.len..];
        if may_open(self.text, vars, n, CHOICES, start, self.e, l.slash, rest) {
            return self.match_judged(vars, used(self.text, n, self.a, self.e));
        }
        NONE
    }

    // What the pattern says of the path as it is written. A hit is told only of one without fault.
    fn told(self) -> Outcome
        ensures miss { (vs : List Variable) → result ≡ outcome.Miss → matches_some vs (span self.entry.text.now self.entry.a self.entry.e) self.entry.path.now ≡ false }
        ensures hit { (vs : List Variable) → result ≡ outcome.Hit → Hit vs (span self.entry.text.now self.entry.a self.entry.e) self.entry.path.now self.entry.led.len }
    {
        let pattern = span(self.text, self.a, self.e);
        let len = self.led.len;
        if len == 0 {
            return Outcome::Open;
        }
        if (1024 < pattern.len()) | (pattern[0] != b'/') {
            return Outcome::Open;
        }
        compare(&pattern[len..], self.led.slash, &self.path[len..])
    }

    // The same: as it is written, where that tells, else expanded.
    fn match_told(self, vars: &[usize], n: usize) -> Matched
        ensures { result ≡ matched_of self.entry.text.now (env self.entry.text.now vars.now n) (span self.entry.text.now self.entry.a self.entry.e) self.entry.path.now }
    {
        let t = self.told();
        match t {
            Outcome::Miss => NONE,
            Outcome::Hit => Matched {
                some: true,
                exact: self.led.len == span(self.text, self.a, self.e).len(),
            },
            Outcome::Open => self.match_led(vars, n),
        }
    }
}

// The pattern from a to before e against a path, by a table of the sizes of the first n variables.
// A path that does not begin with the pattern's front is matched by none of its expansions.
pub fn match_good(
    text: &[u8],
    vars: &[usize],
    n: usize,
    sizes: &[usize; 132],
    a: usize,
    e: usize,
    path: &[u8],
) -> Matched
    ensures { result ≡ matched_in text.now vars.now n sizes.now (span text.now a e) path.now }
{
    if both_fit(text, path) {
        if let Some(led) = lead(text, a, e, false, path) {
            let begun = Begun {
                text,
                a,
                e,
                path,
                led,
            };
            return begun.match_behind(vars, n, sizes);
        }
    }
    NONE
}

// The pattern from a to before e against a path under the first n variables; one with a fault matches nothing.
pub fn match_pattern(
    text: &[u8],
    vars: &[usize],
    n: usize,
    a: usize,
    e: usize,
    path: &[u8],
) -> Matched
    ensures { result ≡ matched_of text.now (env text.now vars.now n) (span text.now a e) path.now }
{
    if both_fit(text, path) {
        if let Some(led) = lead_far(text, a, e, path) {
            let begun = Begun {
                text,
                a,
                e,
                path,
                led,
            };
            return begun.match_told(vars, n);
        }
    }
    NONE
}
