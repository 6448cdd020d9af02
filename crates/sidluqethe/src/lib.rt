// The entry points for C.
#![tactic(auto)]

ghost use Rattle.std.specs.Prelude.{◌≡◌, ◌++◌, not, eqb, ltb, length, drop, if◌then◌else◌};
ghost use Rattle.entries.specs.Entries.{policy_in};
ghost use Rattle.asking.specs.Asking.{asked_of, match_at};
ghost use Rattle.flat.specs.Layout.{records_in};
ghost use Rattle.decide.specs.Decide.{answer_of};
ghost use Rattle.layout.specs.Layout.{laid_out};
ghost use Rattle.sidluqethe.specs.Told.{FilledBy, bytes_told, match_number, read_into, told_in};

use answer::refused;
use decide::decide;
use entries::Unread;
use flat::{ask_brief, match_at, read};
use glob::Matched;
use layout::{ANSWER, write, write_brief};
use perms::Perms;
use text::nowhere;

// ---- read and ask in one call

// Writes the answer to a request into the buffer and says how many bytes it has, or 0 where the buffer is too short,
// which then stays as it was.
#[unsafe(no_mangle)]
pub extern "C" fn sidluqethe_decide(
    text: &[u8],
    name: &[u8],
    path: &[u8],
    asked: u8,
    owner: u8,
    buffer: &mut [u8],
) -> usize
    ensures value { result ≡ (if ltb (length buffer.old) 268 then 0 else 268) }
    ensures written { buffer.new ≡ (if ltb (length buffer.old) 268 then buffer.old else laid_out (answer_of text.now name.now path.now asked (not (eqb owner 0))) ++ drop 268 buffer.old) }
{
    let a = decide(text, name, path, Perms(asked), owner != 0);
    write(buffer, a)
}

// ---- read once, ask often

// Reads a text into memory, writes its refusal into the buffer as an answer, and says how many bytes that has, or 0 where the
// buffer or the memory is too short: then both stay as they were.
#[unsafe(no_mangle)]
pub extern "C" fn sidluqethe_read(text: &[u8], memory: &mut [usize], buffer: &mut [u8]) -> usize
    ensures value { result ≡ bytes_told (read_into (length buffer.old) (length memory.old) text.now) }
    ensures written { buffer.new ≡ told_in buffer.old (read_into (length buffer.old) (length memory.old) text.now) }
    ensures filled { FilledBy text.now memory.old (read_into (length buffer.old) (length memory.old) text.now) memory.new }
{
    if buffer.len() < ANSWER {
        return 0;
    }
    match read(text, memory) {
        // all 0 where the text is accepted
        Ok(_) => write(buffer, refused(nowhere(0))),
        Err(Unread::Refused(refusal)) => write(buffer, refused(refusal)),
        Err(Unread::Short) => 0,
    }
}

// Writes the answer of what memory holds of the text, as sidluqethe_decide does.
#[unsafe(no_mangle)]
pub extern "C" fn sidluqethe_ask(
    text: &[u8],
    memory: &[usize],
    name: &[u8],
    path: &[u8],
    asked: u8,
    owner: u8,
    buffer: &mut [u8],
) -> usize
    ensures value { result ≡ (if ltb (length buffer.old) 268 then 0 else 268) }
    ensures written { buffer.new ≡ (if ltb (length buffer.old) 268 then buffer.old else laid_out (asked_of text.now (policy_in text.now memory.now (records_in memory.now)) name.now path.now asked (not (eqb owner 0))) ++ drop 268 buffer.old) }
{
    let b = ask_brief(text, memory, name, path, Perms(asked), owner != 0);
    write_brief(buffer, text, b)
}

// ---- which rules decided

// 0 where nothing matches, 1 where something does, 2 where it does so exactly.
fn match_number(m: Matched) -> u8
    ensures { result ≡ match_number m }
{
    if m.some {
        if m.exact {
            return 2;
        }
        return 1;
    }
    0
}

// How a rule of what memory holds, by its number from 0, matches a request, whatever is asked for: 0 not, 1 it matches, 2 exactly.
#[unsafe(no_mangle)]
pub extern "C" fn sidluqethe_match(
    text: &[u8],
    memory: &[usize],
    name: &[u8],
    path: &[u8],
    owner: u8,
    rule: usize,
) -> u8
    ensures { result ≡ match_number (match_at text.now (policy_in text.now memory.now (records_in memory.now)) name.now path.now (not (eqb owner 0)) rule) }
{
    match_number(match_at(text, memory, name, path, owner != 0, rule))
}

// ---- the version

// 10000 times the first number of the version, 100 times the second, and the third.
#[unsafe(no_mangle)]
pub extern "C" fn sidluqethe_version() -> u32
    ensures { result ≡ 300 }
{
    300
}
