// Paths against patterns.
#![tactic(auto)]

ghost use Rattle.std.specs.Option.{MatchOption};
ghost use Rattle.std.specs.Prelude.{◌≡◌, true, false, ◌&&◌, List, map, reverse, ℕ, ◌-◌, ◌≤◌, ◌<◌, length, get_or, take};
ghost use Rattle.pattern.specs.Codes.{bracketed, decode};
ghost use Rattle.matcher.specs.Match.{accepts, matches, some_up_to};
ghost use Rattle.matcher.specs.Walk.{after, mark_of, path_fits, repeats_of, taken, takes_of, takes_one};

// The codes of pieces: a literal is its byte; then ?, * and **; a class is the place in the text of its first byte above CLASS.
// They stay numbers: `matched` and `write_pattern`, named in docs/DEFINITIONS.md, are lent buffers of u32, which their clauses read by `decode`.
const ONE: u32 = 256;

const STAR: u32 = 257;

const STAR_STAR: u32 = 258;

const CLASS: u32 = 65536;

// The place in the text that the code of a class tells.
fn place(code: u32) -> usize
    ensures { result ≡ code - 65536 }
{
    if code < CLASS {
        return 0;
    }
    (code - CLASS) as usize
}

// The bytes in the brackets of a class: up to the next ], or the end of the text.
fn class_bytes(text: &[u8], at: usize) -> &[u8]
    ensures { result.now ≡ bracketed text.now at }
{
    scan::span(text, at, scan::end_of(text, at, |b| b != b']'))
}

// Whether a byte is of the kind that a piece takes.
fn takes(text: &[u8], code: u32, b: u8) -> bool
    ensures { result ≡ takes_of (decode text.now code) b }
{
    if code < ONE {
        return b as u32 == code;
    }
    if code == STAR_STAR {
        return true;
    }
    if code <= STAR {
        return b != b'/';
    }
    let at = place(code);
    class::in_class(class_bytes(text, at), b)
}

// Whether a piece takes any number of bytes, and not one.
fn repeats(code: u32) -> bool
    ensures { (text : List ℕ) → result ≡ repeats_of (decode text code) }
{
    (code == STAR) | (code == STAR_STAR)
}

// The mark of a place after a piece.
fn mark(many: bool, before: bool, here: bool, carried: bool, ok: bool) -> bool
    ensures { result ≡ mark_of many before here carried ok }
{
    if many {
        carried & ok | here
    } else {
        before & ok
    }
}

// The marks after a piece in the place of those before it, and whether any place is alive: one that is not reached yet has its mark
// from before.
fn advance(marks: &mut [bool], text: &[u8], code: u32, path: &[u8]) -> bool
    requires { length path.now < length marks.old }
    ensures by_index { (i : ℕ) → i ≤ length path.now → get_or marks.new i false ≡ after (decode text.now code) path.now marks.old i }
    ensures value { result ≡ some_up_to (after (decode text.now code) path.now marks.old) (length path.now) }
{
    let many = repeats(code);
    let mut before = marks[0];
    let mut alive = mark(many, false, before, false, false);
    marks[0] = alive;
    for (i, b) in path.iter().enumerate() {
        let ok = takes(text, code, *b);
        let here = marks[i + 1];
        let m = mark(many, before, here, marks[i], ok);
        marks[i + 1] = m;
        before = here;
        alive = alive | m;
    }
    alive
}

// The places alive after a piece; none where no place of the path is.
fn step<const N: usize>(marks: [bool; N], text: &[u8], code: u32, path: &[u8]) -> Option<[bool; N]>
    requires room { length path.now < N }
    requires size { N ≤ 4096 }
    ensures { MatchOption result (some_up_to (after (decode text.now code) path.now marks.entry) (length path.now) ≡ false)
        (λ places. (i : ℕ) → i ≤ length path.now → get_or places i false ≡ after (decode text.now code) path.now marks.entry i) }
{
    let mut places = marks;
    if advance(&mut places, text, code, path) {
        return Some(places);
    }
    None
}

// Whether all the pieces match the path, by the places that are alive after each.
fn walk_marks<const N: usize>(text: &[u8], codes: &[u32], path: &[u8]) -> bool
    requires room { length path.now < N }
    requires size { N ≤ 4096 }
    ensures { result ≡ matches (map (decode text.now) codes.now) path.now }
{
    let mut marks = [false; N];
    marks[0] = true;
    for code in codes {
        let Some(places) = step(marks, text, *code, path) else {
            return false;
        };
        marks = places;
    }
    let n = path.len();
    marks[n]
}

// Whether all the pieces match the path, by as many marks as its length needs.
fn walk_places(text: &[u8], codes: &[u32], path: &[u8]) -> bool
    requires { length path.now ≤ 4095 }
    ensures { result ≡ matches (map (decode text.now) codes.now) path.now }
{
    if path.len() <= 255 {
        return walk_marks::<256>(text, codes, path);
    }
    walk_marks::<4096>(text, codes, path)
}

// Whether a piece is no star and takes a byte.
fn takes_one(text: &[u8], code: u32, b: u8) -> bool
    ensures { result ≡ takes_one (decode text.now code) b }
{
    !repeats(code) & takes(text, code, b)
}

// How many pieces from the front are no stars and take the byte of the path at their place.
fn taken_front(text: &[u8], codes: &[u32], path: &[u8]) -> usize
    ensures { result ≡ taken text.now codes.now path.now }
{
    codes
        .iter()
        .zip(path)
        .take_while(|(c, b)| takes_one(text, **c, **b))
        .count()
}

// How many pieces from the end are no stars and take the byte of the path at their place from its end.
fn taken_back(text: &[u8], codes: &[u32], path: &[u8]) -> usize
    ensures { result ≡ taken text.now (reverse codes.now) (reverse path.now) }
{
    codes
        .iter()
        .rev()
        .zip(path.iter().rev())
        .take_while(|(code, byte)| takes_one(text, **code, **byte))
        .count()
}

// Whether a star takes all of the path.
fn takes_all(code: u32, path: &[u8]) -> bool
    ensures { (text : List ℕ) → repeats_of (decode text code) ≡ true → result ≡ accepts (decode text code) path.now }
{
    (code == STAR_STAR) | !scan::holds_byte(path, b'/')
}

// Whether all the pieces match the path: from its end they are compared up to a star. A star left alone must take all of the rest,
// and where there are more pieces they are walked by marks.
fn walk_back(text: &[u8], codes: &[u32], path: &[u8]) -> bool
    requires { length path.now ≤ 4095 }
    ensures { result ≡ matches (map (decode text.now) codes.now) path.now }
{
    let n = taken_back(text, codes, path);
    let k = codes.len() - n;
    let m = path.len() - n;
    if 0 < k {
        let last = codes[k - 1];
        if !repeats(last) {
            return false;
        }
        if k == 1 {
            return takes_all(last, &path[..m]);
        }
    }
    walk_places(text, &codes[..k], &path[..m])
}

// Whether all the pieces match the path: from its front they are compared up to a star, and what is left walked from the back.
fn walk(text: &[u8], codes: &[u32], path: &[u8]) -> bool
    requires { length path.now ≤ 4095 }
    ensures { result ≡ matches (map (decode text.now) codes.now) path.now }
{
    let n = taken_front(text, codes, path);
    if n < codes.len() {
        if !repeats(codes[n]) {
            return false;
        }
        return walk_back(text, &codes[n..], &path[n..]);
    }
    n == path.len()
}

// Whether the first pieces, as many as counted, match a path of at most 4,095 bytes.
pub fn matched(text: &[u8], codes: &[u32], count: usize, path: &[u8]) -> bool
    ensures { result ≡ (path_fits path.now && matches (map (decode text.now) (take count codes.now)) path.now) }
{
    if path.len() <= 4095 {
        if count <= codes.len() {
            return walk(text, &codes[..count], path);
        }
        return walk(text, codes, path);
    }
    false
}
