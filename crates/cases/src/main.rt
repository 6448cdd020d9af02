// Answers requests from standard input, one a line, as document 01's case program writes them. A request has five fields
// parted by tabs: text, profile name and path in hex, the asked number, the owner mark 0 or 1. Each is also asked of what is read of
// its text; where that answer is another, it is written too.
#![tactic(auto)]

ghost use Rattle.std.specs.Prelude.{◌≡◌, ◌≤◌, ◌<◌, length, take, IfOk};

use answer::{Answer, refused};
use decide::decide;
use entries::Unread;
use perms::Perms;
use print::{put, put_execute, put_number, put_target};
use std::io;
use std::io::{BufReader, BufWriter, ErrorKind, Read, Write};
use text::{Refusal, nowhere};

// How many bytes a text or a path may have; a profile name.
const LONG: usize = 65536;

const SHORT: usize = 4096;

// The value of a hex digit; of any other byte 0.
fn digit(b: u8) -> u8
    ensures { result < 16 }
{
    if b < b'0' {
        return 0;
    }
    if b <= b'9' {
        return b - b'0';
    }
    if b < b'a' {
        return 0;
    }
    if b <= b'f' {
        return b - b'a' + 10;
    }
    0
}

// The next byte of the input; 0 behind its end.
fn next_byte<I: Read>(input: &mut I) -> io::Result<u8> {
    let mut one = [0u8; 1];
    match input.read_exact(&mut one) {
        Ok(()) => Ok(one[0]),
        Err(e) => {
            if e.kind() == ErrorKind::UnexpectedEof {
                Ok(0)
            } else {
                Err(e)
            }
        }
    }
}

// Whether a field ends with this byte.
fn is_end(b: u8) -> bool {
    (b == b'\t') | (b == b'\n') | (b == 0)
}

// Reads the hex field that begins with this byte into out, and answers how many bytes it has.
fn read_hex<I: Read>(input: &mut I, first: u8, out: &mut [u8]) -> io::Result<usize>
    ensures bound { IfOk result (λ n. n ≤ length out.new) }
    ensures front { IfOk result (λ n. n ≡ length (take n out.new)) }
{
    let mut b = first;
    let mut n = 0;
    while n < out.len() {
        if is_end(b) {
            return Ok(n);
        }
        out[n] = digit(b) * 16 + digit(next_byte(input)?);
        n += 1;
        b = next_byte(input)?;
    }
    Ok(n)
}

// A number with one digit more; one of four digits stays.
fn with_digit(n: usize, digit: usize) -> usize
    requires low { n ≤ 10005 }
    requires one { digit ≤ 15 }
    ensures { result ≤ 10005 }
{
    if n < 1000 {
        return n * 10 + digit;
    }
    n
}

// Reads a number of at most three digits, and answers it, or 255 where it is more.
fn read_number<I: Read>(input: &mut I) -> io::Result<u8> {
    let mut n: usize = 0;
    let mut left: usize = 4;
    while 0 < left {
        let b = next_byte(input)?;
        if is_end(b) {
            left = 0;
        } else {
            n = with_digit(n, digit(b) as usize);
            left -= 1;
        }
    }
    if n < 256 {
        return Ok(n as u8);
    }
    Ok(255)
}

// Writes an answer's line.
fn put_answer<W: Write>(out: &mut W, a: Answer) -> io::Result<()> {
    let verdict = a.verdict;
    let execute = a.execute;
    let target = a.target;
    let bytes = target.bytes;
    match verdict {
        Err(refusal) => {
            put(out, b"refused\t")?;
            put_number(out, refusal.number as u64)?;
            put(out, b"\t")?;
            put_number(out, refusal.line as u64)?;
            put(out, b"\t")?;
            put_number(out, refusal.column as u64)?;
            put(out, b"\t-\n")
        }
        Ok(()) => {
            put_number(out, a.granted.0 as u64)?;
            put(out, b"\t")?;
            put_number(out, a.recorded.0 as u64)?;
            put(out, b"\t")?;
            put_execute(out, execute)?;
            put(out, b"\t")?;
            put_target(out, bytes, target.len, b"-")?;
            put(out, b"\n")
        }
    }
}

// The refusal; all 0 where there is none.
fn refusal_of(verdict: Result<(), Refusal>) -> Refusal {
    match verdict {
        Ok(()) => nowhere(0),
        Err(refusal) => refusal,
    }
}

// The answer of a text that is read into memory and then asked. What is wrong with the request comes before what is wrong with the
// text, as where both are asked in one call.
fn by_memory(
    text: &[u8],
    memory: &mut [usize],
    name: &[u8],
    path: &[u8],
    asked: Perms,
    owner: bool,
) -> Answer {
    let got = flat::read(text, memory);
    let a = flat::ask(text, memory, name, path, asked, owner);
    let verdict = a.verdict;
    let first = refusal_of(verdict);
    if (0 < first.number) & (first.number < 4) {
        return a;
    }
    if let Err(Unread::Refused(refusal)) = got {
        return refused(refusal);
    }
    a
}

// Whether two answers are the same.
fn is_same(a: Answer, b: Answer) -> bool {
    let one = a.verdict;
    let other = b.verdict;
    let first = refusal_of(one);
    let second = refusal_of(other);
    let by_one = a.execute;
    let by_other = b.execute;
    let target = a.target;
    let named = b.target;
    let same_target = scan::same_bytes(&target.bytes, &named.bytes) & (target.len == named.len);
    (first.number == second.number)
        & (first.line == second.line)
        & (first.column == second.column)
        & (a.granted.0 == b.granted.0)
        & (a.recorded.0 == b.recorded.0)
        & (by_one.number() == by_other.number())
        & same_target
}

// Writes an answer's line, and that of asking what was read where it is another.
fn put_both<W: Write>(out: &mut W, a: Answer, b: Answer) -> io::Result<()> {
    put_answer(out, a)?;
    if !is_same(a, b) {
        put(out, b"asked otherwise: ")?;
        put_answer(out, b)?;
    }
    Ok(())
}

// Answers the next request; false where there is none.
fn request<I: Read, W: Write>(input: &mut I, out: &mut W) -> io::Result<bool> {
    let first = next_byte(input)?;
    if first == 0 {
        return Ok(false);
    }
    let mut text = [0u8; LONG];
    let text_bytes = read_hex(input, first, &mut text)?;
    let mut name = [0u8; SHORT];
    let name_first = next_byte(input)?;
    let name_bytes = read_hex(input, name_first, &mut name)?;
    let mut path = [0u8; LONG];
    let path_first = next_byte(input)?;
    let path_bytes = read_hex(input, path_first, &mut path)?;
    let asked = read_number(input)?;
    let owner = read_number(input)? == 1;
    let a = decide(
        &text[..text_bytes],
        &name[..name_bytes],
        &path[..path_bytes],
        Perms(asked),
        owner,
    );
    let mut memory = [0usize; 7400];
    let b = by_memory(
        &text[..text_bytes],
        &mut memory,
        &name[..name_bytes],
        &path[..path_bytes],
        Perms(asked),
        owner,
    );
    put_both(out, a, b)?;
    out.flush()?;
    Ok(true)
}

// Answers each request. A proved loop ends, so it counts to a number that no run reaches.
fn requests<I: Read, W: Write>(input: &mut I, out: &mut W) -> io::Result<()> {
    for _ in 0..u64::MAX {
        if !request(input, out)? {
            break;
        }
    }
    Ok(())
}

fn main(rt: HostRuntime) -> io::Result<()> {
    let mut input = BufReader::with_capacity(rt.alloc(), LONG, rt.reader())?;
    let mut out = BufWriter::new(rt.alloc(), io::writer(&rt))?;
    put(&mut out, b"granted\trecorded\texecute\ttarget\n")?;
    out.flush()?;
    requests(&mut input, &mut out)
}
