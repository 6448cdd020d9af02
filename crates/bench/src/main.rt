// Holds a pattern to a path many times, to be timed. Call: bench CASE TURNS
#![tactic(auto)]

ghost use Rattle.std.specs.Prelude.{◌≡◌, ◌+◌, ◌≤◌, length, take};

use faults::pattern_fault;
use glob::match_good;
use scan::span;
use std::io;
use std::rt::Env;

// Where the names of the variables stand in the text, a letter each; the patterns follow.
const NAMES: usize = 3072;

const COUNT: usize = 11;

// The place of a pattern in the text, and that of the path in a long one.
#[derive(Clone, Copy)]
struct Case {
    start: usize,
    end: usize,
    from: usize,
    to: usize,
}

fn new_case(start: usize, end: usize, from: usize, to: usize) -> Case {
    Case {
        start,
        end,
        from,
        to,
    }
}

// Literals only, and stars: 20 pieces each, or 1,024. The path of `dead-20` begins with no /.
// Then 256 expansions of 20 pieces; 256 of 1,024; 17 classes of 1,024 bytes between two of ** among 20 pieces.
fn case_of(name: &[u8]) -> Option<Case> {
    match name {
        b"literals-1024" => Some(new_case(3083, 3088, 0, 1024)),
        b"literals-4095" => Some(new_case(3088, 3108, 0, 4095)),
        b"literals-20" => Some(new_case(3088, 3108, 0, 20)),
        b"dead-20" => Some(new_case(3088, 3108, 1, 21)),
        b"stars-4095" => Some(new_case(3108, 3128, 0, 4095)),
        b"stars-20" => Some(new_case(3108, 3128, 0, 20)),
        b"choices-20" => Some(new_case(3128, 3160, 0, 20)),
        b"double-stars-4095" => Some(new_case(3160, 3187, 0, 4095)),
        b"classes-4095" => Some(new_case(3187, 3260, 0, 4095)),
        b"classes-20" => Some(new_case(3187, 3260, 0, 20)),
        _ => None,
    }
}

// Variable w is called by letter w of the names; its value k, the last one, is the bytes from a to before e.
fn set_value(vars: &mut [usize; 1120], w: usize, k: usize, a: usize, e: usize) {
    if (w < 32) & (k < 16) {
        let at = 96 + 2 * (16 * w + k);
        vars[2 * w] = NAMES + w;
        vars[2 * w + 1] = NAMES + w + 1;
        vars[64 + w] = k + 1;
        vars[at] = a;
        vars[at + 1] = e;
    }
}

// Four values that are the same.
fn set_four(vars: &mut [usize; 1120], w: usize, a: usize, e: usize) {
    for k in 0..4 {
        set_value(vars, w, k, a, e);
    }
}

// A to D are ** four times; S is 509 of **; V is 1,023 of a; K is a class of 1,024 bytes; E to H are a four times.
fn set_variables(vars: &mut [usize; 1120]) {
    for w in 0..4 {
        set_four(vars, w, 1024, 1026);
    }
    set_value(vars, 4, 0, 1024, 2042);
    set_value(vars, 5, 0, 0, 1023);
    set_value(vars, 6, 0, 2048, 3072);
    for w in 7..11 {
        set_four(vars, w, 0, 1);
    }
}

// Bytes put into the text from a place on.
fn put(text: &mut [u8; 4096], at: usize, bytes: &[u8])
    requires { at + length bytes.now ≤ 4096 }
{
    text[at..at + bytes.len()].copy_from_slice(bytes);
}

// The values, the names and the patterns.
fn new_text() -> [u8; 4096] {
    let mut text = [b'a'; 4096];
    let stars = [b'*'; 1024];
    put(&mut text, 1024, &stars);
    let mut class = [b'b'; 1024];
    class[0] = b'[';
    class[1] = b'^';
    class[1023] = b']';
    put(&mut text, 2048, &class);
    put(
        &mut text,
        NAMES,
        b"ABCDSVKEFGH/@{V}/aaaaaaaaaaaaaaaaaaa/*a*a*a*a*a*a*a*a*a*/@{E}@{F}@{G}@{H}aaaaaaaaaaaaaa*/@{A}@{B}@{C}@{D}@{S}@{S}**/**@{K}@{K}@{K}@{K}@{K}@{K}@{K}@{K}@{K}@{K}@{K}@{K}@{K}@{K}@{K}@{K}@{K}**",
    );
    text
}

fn digit(b: u8) -> usize
    ensures { result ≤ 9 }
{
    match b {
        b'0'..=b'9' => (b - b'0') as usize,
        _ => 0,
    }
}

// The last nine digits of a number.
fn number(text: &[u8]) -> usize {
    text.iter().fold(0, |n, b| n % 100000000 * 10 + digit(*b))
}

// Whether the pattern from a to before e has no fault and matches the path.
fn hits(
    text: &[u8],
    vars: &[usize],
    sizes: &[usize; 132],
    a: usize,
    e: usize,
    path: &[u8],
) -> bool {
    (pattern_fault(text, vars, COUNT, sizes, a, e) == 0)
        && match_good(text, vars, COUNT, sizes, a, e, path).some
}

// How many of the turns match.
fn matches(text: &[u8], vars: &[usize; 1120], case: Case, path: &[u8], turns: usize) -> usize {
    let sizes = measure::sizes_of(text, vars, COUNT);
    (0..turns)
        .filter(|_| hits(text, vars, &sizes.table, case.start, case.end, path))
        .count()
}

fn run(rt: &impl Print, case: Case, turns: usize) -> io::Result<()> {
    let text = new_text();
    let mut vars = [0; 1120];
    set_variables(&mut vars);
    let mut path = [b'a'; 4096];
    path[0] = b'/';
    let hits = matches(&text, &vars, case, span(&path, case.from, case.to), turns);
    println!(rt; "{hits}")
}

// Puts an argument at the front of the buffer and says how many bytes it has: 0 where it is missing or longer than the buffer.
fn argument(rt: &impl Env, i: usize, buffer: &mut [u8]) -> usize
    ensures bound { result ≤ length buffer.new }
    ensures front { result ≡ length (take result buffer.new) }
{
    rt.arg(i, buffer).unwrap_or(0)
}

fn main(rt: HostRuntime) -> io::Result<()> {
    let mut name = [0u8; 4096];
    let m = argument(&rt, 1, &mut name);
    let mut count = [0u8; 4096];
    let k = argument(&rt, 2, &mut count);
    match case_of(&name[..m]) {
        Some(case) => run(&rt, case, number(&count[..k])),
        None => eprintln!(rt; "call: bench CASE TURNS"),
    }
}
