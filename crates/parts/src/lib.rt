// The parts and items of patterns and values, read at a place.
#![tactic(auto)]

ghost use Rattle.std.specs.Prelude.{◌≡◌, ltb, drop, if◌then◌else◌};
ghost use Rattle.scan.specs.Bytes.{span};
ghost use Rattle.pattern.specs.Places.{part_at, item_at, lone};
ghost use Rattle.pattern.specs.Reads.{escape_of, star_of, single_of, class_after, use_after, Seen, seen_item, code_of};

use class::good_class;
use ends::{seek, up_to};
use pattern::{ItemRead, PartRead, PieceRead};
use scan::{begins_at, span};

// The part that a backslash before a place makes.
fn escape_at(s: &[u8], at: usize) -> PartRead
    ensures { result ≡ escape_of (drop at s.now) }
{
    if at < s.len() {
        return PartRead::Is(PieceRead::Byte(s[at]));
    }
    PartRead::Bad
}

// The piece that a star before a place makes.
fn star_at(s: &[u8], at: usize) -> PieceRead
    ensures { result ≡ star_of (drop at s.now) }
{
    if begins_at(s, at, b'*') {
        return PieceRead::StarStar;
    }
    PieceRead::Star
}

// The class that a bracket before a place of the span opens.
fn class_at(text: &[u8], a: usize, e: usize, at: usize) -> PartRead
    ensures { Seen text.now result (class_after (drop at (span text.now a e))) }
{
    let s = span(text, a, e);
    let n = up_to(s, at, b']');
    if n == 0 {
        return PartRead::Bad;
    }
    if good_class(span(s, at, at + n - 1)) {
        return PartRead::Is(PieceRead::Class(a + at));
    }
    PartRead::Bad
}

// The use of a variable whose brace stands at a place of the span.
fn use_at(text: &[u8], a: usize, e: usize, at: usize) -> PartRead
    ensures { Seen text.now result (use_after (drop at (span text.now a e))) }
{
    let s = span(text, a, e);
    let n = up_to(s, at, b'}');
    if n == 0 {
        return PartRead::Bad;
    }
    PartRead::Use {
        start: a + at + 1,
        end: a + at + n - 1,
    }
}

// Whether b is a bracket, a brace or a caret.
fn is_lone(b: u8) -> bool
    ensures { result ≡ lone b }
{
    matches!(b, b']' | b'{' | b'}' | b'^')
}

// The part that b makes by itself.
fn single(b: u8) -> PartRead
    ensures { result ≡ single_of b }
{
    if b == b'?' {
        return PartRead::Is(PieceRead::One);
    }
    if is_lone(b) {
        return PartRead::Bad;
    }
    PartRead::Is(PieceRead::Byte(b))
}

// The part at place i of the span from a to e.
pub fn part_at(text: &[u8], a: usize, e: usize, i: usize) -> PartRead
    ensures { Seen text.now result (part_at (span text.now a e) i) }
{
    let s = span(text, a, e);
    if s.len() <= i {
        return PartRead::Bad;
    }
    let b = s[i];
    if b == b'\\' {
        return escape_at(s, i + 1);
    }
    if b == b'*' {
        return PartRead::Is(star_at(s, i + 1));
    }
    if b == b'[' {
        return class_at(text, a, e, i + 1);
    }
    if (b == b'@') & begins_at(s, i + 1, b'{') {
        return use_at(text, a, e, i + 1);
    }
    single(b)
}

// The code of a piece; 0 where it has no 32 bits.
pub fn piece_code(p: PieceRead) -> u32
    ensures { result ≡ (if ltb (code_of p) 4294967296 then code_of p else 0) }
{
    match p {
        PieceRead::Byte(b) => b as u32,
        PieceRead::One => 256,
        PieceRead::Star => 257,
        PieceRead::StarStar => 258,
        PieceRead::Class(x) if x < 4294901760 => 65536 + x as u32,
        PieceRead::Class(_) => 0,
    }
}

// The item at place i of the span from a to e.
pub fn item_at(text: &[u8], a: usize, e: usize, i: usize) -> ItemRead
    ensures { seen_item text.now result ≡ item_at (span text.now a e) i }
{
    let s = span(text, a, e);
    if s.len() <= i {
        return ItemRead::Single(PartRead::Bad);
    }
    if s[i] != b'{' {
        return ItemRead::Single(part_at(text, a, e, i));
    }
    let j = seek(s, i + 1, b'}');
    if j < s.len() {
        return ItemRead::Among {
            start: a + i + 1,
            end: a + j,
        };
    }
    ItemRead::Single(part_at(text, a, e, i))
}
