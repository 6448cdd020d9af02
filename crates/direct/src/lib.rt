// A pattern without choices against a path, as it is written: nothing is expanded, measured or cleared.
#![tactic(auto)]

ghost use Rattle.std.specs.Prelude.{◌≡◌, false, eqb, if◌then◌else◌};
ghost use Rattle.pattern.specs.Pieces.{up_to};
ghost use Rattle.matcher.specs.Match.{no_slash};
ghost use Rattle.direct.specs.Direct.{class_one, fitting, one_at, outcome_of, rest_of, simple, star_of};

use class::{good_class, in_class};
use ends::up_to;
use front::plain;
use scan::{begins_at, holds_byte};

// What is told: the pattern does not match the path, it does if it has no fault, or that is not told here.
#[derive(Clone, Copy)]
pub enum Outcome {
    Miss,
    Hit,
    Open,
}

// A piece of one byte: how many bytes of the pattern write it, and whether it takes the path's byte.
#[derive(Clone, Copy)]
pub struct One {
    pub width: usize,
    pub takes: bool,
}

// ---- pieces of one byte

// The class that a pattern begins with behind its [, against a byte; none where it is not good.
fn class_one(s: &[u8], b: u8) -> Option<One>
    ensures { result ≡ class_one b s.now (up_to 93 s.now) }
{
    let n = up_to(s, 0, b']');
    if n != 0 {
        let class = &s[..n - 1];
        if good_class(class) {
            return Some(One {
                width: n + 1,
                takes: in_class(class, b),
            });
        }
    }
    None
}

// The piece of one byte that a pattern begins with, behind a / or not, against a byte.
fn first_one(s: &[u8], slash: bool, b: u8) -> Option<One>
    ensures { result ≡ one_at slash b s.now }
{
    let (c, behind) = s.split_first()?;
    if *c == b'?' {
        return Some(One {
            width: 1,
            takes: b != b'/',
        });
    }
    if *c == b'[' {
        return class_one(behind, b);
    }
    if plain(*c, slash) {
        return Some(One {
            width: 1,
            takes: b == *c,
        });
    }
    None
}

// ---- a star and what follows it

// Whether a tail is literals and ? only, and no / behind a /.
fn is_simple(tail: &[u8]) -> bool
    ensures { result ≡ simple false tail.now }
{
    let mut slash = false;
    for b in tail {
        if !(plain(*b, slash) | (*b == b'?')) {
            return false;
        }
        slash = *b == b'/';
    }
    true
}

// Whether a byte of a tail takes a byte.
fn takes(b: u8, c: u8) -> bool
    ensures { result ≡ (if eqb b 63 then no_slash c else eqb b c) }
{
    if b == b'?' {
        return c != b'/';
    }
    b == c
}

// Whether each byte of a tail takes the byte of the path at its place.
fn fits(tail: &[u8], path: &[u8]) -> bool
    ensures { result ≡ fitting tail.now path.now }
{
    if path.len() < tail.len() {
        return false;
    }
    tail.iter().zip(path).all(|(b, c)| takes(*b, *c))
}

// A star that takes any bytes, or those that are no /, and a tail behind it.
fn star(any: bool, tail: &[u8], path: &[u8]) -> Outcome
    ensures { result ≡ star_of any tail.now path.now }
{
    if !is_simple(tail) {
        return Outcome::Open;
    }
    if path.len() < tail.len() {
        return Outcome::Miss;
    }
    let m = path.len() - tail.len();
    if fits(tail, &path[m..]) {
        if any | !holds_byte(&path[..m], b'/') {
            return Outcome::Hit;
        }
    }
    Outcome::Miss
}

// What is left of a pattern against what is left of a path.
fn rest(s: &[u8], path: &[u8]) -> Outcome
    ensures { result ≡ rest_of s.now path.now }
{
    match s {
        [] => if path.is_empty() {
            Outcome::Hit
        } else {
            Outcome::Miss
        },
        [b'*', b'*', tail @ ..] => star(true, tail, path),
        [b'*', tail @ ..] => star(false, tail, path),
        _ => Outcome::Open,
    }
}

// ---- a pattern

// A pattern behind a / or not, against a path.
pub fn compare(s: &[u8], slash: bool, path: &[u8]) -> Outcome
    ensures { result ≡ outcome_of slash s.now path.now }
{
    let mut left = s;
    let mut after = slash;
    let mut bytes = path;
    while let [b, behind @ ..] = bytes {
        let Some(one) = first_one(left, after, *b) else {
            return rest(left, bytes);
        };
        if !one.takes {
            return Outcome::Miss;
        }
        after = begins_at(left, 0, b'/');
        left = &left[one.width..];
        bytes = behind;
    }
    rest(left, bytes)
}
