// A table of rule records as plain numbers, for callers whose language has no such records: a head of HEAD numbers, and WORDS
// numbers for each record.
#![tactic(auto)]

ghost use Rattle.std.specs.Prelude.{◌≡◌, List, ℕ, ◌+◌, ◌≤◌, ◌<◌, length};
ghost use Rattle.std.proofs.Math.Seq.{paste};
ghost use Rattle.answer.specs.Answers.{whole_of};
ghost use Rattle.entries.specs.Entries.{entry_of, policy_in};
ghost use Rattle.asking.specs.Asking.{asked_of, match_at};
ghost use Rattle.asking.specs.Steps.{out_of};
ghost use Rattle.flat.specs.Layout.{bit, encoded, fallback_in, front_at, kind_in, number, record_at, records_in, room_in, rule_at, transition_in, transition_number};
ghost use Rattle.flat.specs.Filled.{FilledIn};

use answer::{Answer, Brief, fill};
use asking::{begin, conclude_brief, match_record, weigh};
use entries::{HEAD, RULE_COUNT, Record, Unread, judge, next_record, start};
use glob::Matched;
use modes::{Fallback, Kind, Mode};
use perms::Perms;
use rule::Rule;
use scan::least;
use text::{Place, Span};
use variables::cell;
use weigh::no_findings;
use words::{Front, Words, is_out};

// The numbers of a record.
pub const WORDS: usize = 12;

// ---- what is no number by itself

// Whether a number has a bit.
fn has_bit(n: usize, k: usize) -> bool
    ensures { result ≡ bit k n }
{
    n & k != 0
}

// 1 or 0.
fn number(b: bool) -> usize
    ensures small { result ≤ 1 }
    ensures same { result ≡ number b }
{
    b as usize
}

// The number of a transition.
fn transition_number(transition: Option<Mode>) -> usize
    ensures { result ≡ transition_number transition }
{
    match transition {
        None => 0,
        Some(m) => {
            1 + 2 * number(m.scrubs)
                + 4 * m.kind.number() as usize
                + 16 * m.fallback.number() as usize
        }
    }
}

fn kind_in(n: usize) -> Kind
    ensures { result ≡ kind_in n }
{
    match (has_bit(n, 4), has_bit(n, 8)) {
        (false, false) => Kind::Unconfined,
        (true, false) => Kind::Profile,
        (false, true) => Kind::Child,
        (true, true) => Kind::Inherit,
    }
}

fn fallback_in(n: usize) -> Fallback
    ensures { result ≡ fallback_in n }
{
    match (has_bit(n, 16), has_bit(n, 32)) {
        (true, _) => Fallback::Inherit,
        (false, true) => Fallback::Unconfined,
        (false, false) => Fallback::Absent,
    }
}

// The transition of a number.
fn transition_in(n: usize) -> Option<Mode>
    ensures { result ≡ transition_in n }
{
    if has_bit(n, 1) {
        return Some(Mode {
            kind: kind_in(n),
            fallback: fallback_in(n),
            scrubs: has_bit(n, 2),
        });
    }
    None
}

// ---- a record

// Records stand in memory that callers of C lend as plain numbers (sidluqethe_read), so their places in it are numbers.

// The numbers of a record.
fn encode(record: Record) -> [usize; WORDS]
    ensures value { 12 ≡ length result }
    ensures same { result ≡ encoded «record» }
    ensures byte { «record».rule.perms.0 < 256 }
{
    let rule = record.rule;
    let front = record.front;
    let transition = rule.transition;
    [
        rule.profile,
        front.first,
        front.first_mask,
        front.second,
        front.second_mask,
        rule.pattern.from.0,
        rule.pattern.end.0,
        rule.target.from.0,
        rule.target.end.0,
        number(rule.audit) + 2 * number(rule.deny) + 4 * number(rule.owner),
        rule.perms.0 as usize,
        transition_number(transition),
    ]
}

// Writes the numbers of a record at a place.
fn store(memory: &mut [usize], at: usize, record: Record)
    requires { at + 12 ≤ length memory.old }
    ensures pasted { memory.new ≡ paste memory.old at (encoded «record») 12 }
    ensures back { record_at memory.new at ≡ «record» }
{
    memory[at..at + WORDS].copy_from_slice(&encode(record));
}

// The words and masks that stand behind a place.
fn front_at(memory: &[usize], at: usize) -> Front
    requires { at + 12 ≤ length memory.now }
    ensures { result ≡ front_at memory.now at }
{
    Front {
        first: memory[at + 1],
        second: memory[at + 3],
        first_mask: memory[at + 2],
        second_mask: memory[at + 4],
    }
}

// The rule whose numbers stand at a place.
fn rule_at(memory: &[usize], at: usize) -> Rule
    requires { at + 12 ≤ length memory.now }
    ensures { result ≡ rule_at memory.now at }
{
    let said = memory[at + 9];
    let perms = Perms((memory[at + 10] % 256) as u8);
    let transition = transition_in(memory[at + 11]);
    Rule {
        profile: memory[at],
        audit: has_bit(said, 1),
        deny: has_bit(said, 2),
        owner: has_bit(said, 4),
        perms,
        transition,
        pattern: Span {
            from: Place(memory[at + 5]),
            end: Place(memory[at + 6]),
        },
        target: Span {
            from: Place(memory[at + 7]),
            end: Place(memory[at + 8]),
        },
    }
}

// The record whose numbers stand at a place.
fn load(memory: &[usize], at: usize) -> Record
    requires { at + 12 ≤ length memory.now }
    ensures { result ≡ record_at memory.now at }
{
    let rule = rule_at(memory, at);
    let front = front_at(memory, at);
    Record { rule, front }
}

// Whether the record at a place adds nothing, by its profile and its front's words alone.
fn is_out_at(memory: &[usize], at: usize, words: Words, profile: usize) -> bool
    requires { at + 12 ≤ length memory.now }
    ensures { (s : List ℕ) → result ≡ out_of words profile (entry_of s (record_at memory.now at)) }
{
    (memory[at] != profile) | is_out(words, front_at(memory, at))
}

// ---- all records

// For how many records memory of so many numbers has room.
fn room_in(size: usize) -> usize
    ensures { result ≡ room_in size }
{
    if size < HEAD {
        return 0;
    }
    (size - HEAD) / WORDS
}

// Fills memory with what the text holds, and answers how many records that are. Memory that is too short for the head, or a text
// that is refused, leaves it as found.
pub fn read(text: &[u8], memory: &mut [usize]) -> Result<usize, Unread>
    ensures { FilledIn text.now memory.old result memory.new }
{
    let rooms = room_in(memory.len());
    let n = judge(text, memory, rooms)?;
    let mut at = start(memory);
    for i in 0..n {
        // there is one: as many are to come as were counted
        let one = next_record(text, memory, at).unwrap();
        store(memory, HEAD + WORDS * i, one.record);
        at = one.next;
    }
    Ok(n)
}

// The answer of what memory holds of the text, its target told by its place there.
pub fn ask_brief(
    text: &[u8],
    memory: &[usize],
    name: &[u8],
    path: &[u8],
    asked: Perms,
    owner: bool,
) -> Brief
    ensures { whole_of text.now result
        ≡ asked_of text.now (policy_in text.now memory.now (records_in memory.now)) name.now path.now asked.0 owner }
{
    let query = begin(
        text,
        memory,
        room_in(memory.len()),
        name,
        path,
        asked,
        owner,
    );
    let words = query.words;
    let profile = query.profile;
    let n = query.count;
    let mut found = no_findings();
    for k in 0..n {
        let at = HEAD + WORDS * k;
        if is_out_at(memory, at, words, profile) {
            continue;
        }
        found = weigh(text, memory, path, query, load(memory, at), found);
    }
    conclude_brief(query, found)
}

// The same with the bytes of its target.
pub fn ask(
    text: &[u8],
    memory: &[usize],
    name: &[u8],
    path: &[u8],
    asked: Perms,
    owner: bool,
) -> Answer
    ensures { result ≡ asked_of text.now (policy_in text.now memory.now (records_in memory.now)) name.now path.now asked.0 owner }
{
    fill(text, ask_brief(text, memory, name, path, asked, owner))
}

// How record number k of what memory holds matches a request, whatever is asked for.
pub fn match_at(
    text: &[u8],
    memory: &[usize],
    name: &[u8],
    path: &[u8],
    owner: bool,
    k: usize,
) -> Matched
    ensures { result ≡ match_at text.now (policy_in text.now memory.now (records_in memory.now)) name.now path.now owner k }
{
    if k < least(room_in(memory.len()), cell(memory, RULE_COUNT)) {
        return match_record(
            text,
            memory,
            name,
            path,
            owner,
            load(memory, HEAD + WORDS * k),
        );
    }
    Matched {
        some: false,
        exact: false,
    }
}
