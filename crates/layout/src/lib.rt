// The bytes of an answer.
#![tactic(auto)]

ghost use Rattle.std.specs.Prelude.{◌≡◌, ◌++◌, ◌+◌, ◌-◌, ◌%◌, ◌≤◌, ltb, length, drop, replicate, if◌then◌else◌};
ghost use Rattle.answer.specs.Answers.{whole_of};
ghost use Rattle.layout.specs.Layout.{head_by, laid_out, refusal_of};

use answer::{Answer, Brief};
use perms::Perms;
use scan::span;
use text::{Refusal, nowhere};

// The bytes of an answer: refusal, granted, recorded, execute, four of the line, four of the column, the target's length, the target.
const HEAD: usize = 13;

pub const ANSWER: usize = 268;

// The refusal; all 0 where there is none.
fn refusal_of(verdict: Result<(), Refusal>) -> Refusal
    ensures { result ≡ refusal_of verdict }
{
    match verdict {
        Ok(()) => nowhere(0),
        Err(refusal) => refusal,
    }
}

// What stands in front of a target of so many bytes.
fn head_of(refusal: Refusal, granted: Perms, recorded: Perms, execute: u8, len: usize) -> [u8; HEAD]
    ensures value { 13 ≡ length result }
    ensures same { result ≡ head_by refusal granted recorded execute len }
{
    let [line, line_1, line_2, line_3, ..] = refusal.line.to_le_bytes();
    let [column, column_1, column_2, column_3, ..] = refusal.column.to_le_bytes();
    let [length, ..] = len.to_le_bytes();
    [
        refusal.number,
        granted.0,
        recorded.0,
        execute,
        line,
        line_1,
        line_2,
        line_3,
        column,
        column_1,
        column_2,
        column_3,
        length,
    ]
}

// Copies bytes over a part of a buffer. By hand: of `copy_from_slice` LLVM makes a memmove here, which the header does not name.
fn copy(part: &mut [u8], bytes: &[u8])
    requires { length part.old ≡ length bytes.now }
    ensures { part.new ≡ bytes.now }
{
    for i in 0..bytes.len() {
        part[i] = bytes[i];
    }
}

// Writes a head and a target behind it, zeros behind that, and says how many bytes these are, or 0 where the buffer is too short,
// which then stays as it was. It is not put into its callers: in `write` LLVM would make a memmove of two copies of the target, and
// the archive is to need memcpy and memset alone.
#[inline(never)]
fn lay(buffer: &mut [u8], head: &[u8], target: &[u8]) -> usize
    requires { (13 ≡ length head.now) × (length target.now ≤ 255) }
    ensures value { result ≡ (if ltb (length buffer.old) 268 then 0 else 268) }
    ensures written { buffer.new
        ≡ (if ltb (length buffer.old) 268 then buffer.old
        else head.now ++ (target.now ++ replicate (255 - length target.now) 0) ++ drop 268 buffer.old) }
{
    if buffer.len() < ANSWER {
        return 0;
    }
    buffer[HEAD..ANSWER].fill(0);
    copy(&mut buffer[HEAD..HEAD + target.len()], target);
    copy(&mut buffer[..HEAD], head);
    ANSWER
}

// Writes an answer at the start of the buffer and says how many bytes it has, or 0 where the buffer is too short, which then
// stays as it was.
pub fn write(buffer: &mut [u8], a: Answer) -> usize
    ensures value { result ≡ (if ltb (length buffer.old) 268 then 0 else 268) }
    ensures written { buffer.new ≡ (if ltb (length buffer.old) 268 then buffer.old else laid_out a ++ drop 268 buffer.old) }
{
    let head = head_of(
        refusal_of(a.verdict),
        a.granted,
        a.recorded,
        a.execute.number(),
        a.target.len,
    );
    lay(buffer, &head, &a.target.bytes)
}

// Writes an answer whose target stands in the text, as write does.
pub fn write_brief(buffer: &mut [u8], text: &[u8], b: Brief) -> usize
    ensures value { result ≡ (if ltb (length buffer.old) 268 then 0 else 268) }
    ensures written { buffer.new ≡ (if ltb (length buffer.old) 268 then buffer.old else laid_out (whole_of text.now b) ++ drop 268 buffer.old) }
{
    let name = span(span(text, b.target.from.0, b.target.end.0), 0, 255);
    let head = head_of(
        refusal_of(b.verdict),
        b.granted,
        b.recorded,
        b.execute.number(),
        name.len(),
    );
    lay(buffer, &head, name)
}
