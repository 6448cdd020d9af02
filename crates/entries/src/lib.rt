// What reading keeps of a text: a head of numbers, and a record of each rule.
#![tactic(auto)]

ghost use Rattle.std.specs.Prelude.{◌≡◌, ◌+◌, ◌≤◌, length};
ghost use Rattle.std.proofs.Math.Seq.{paste};
ghost use Rattle.rule.specs.Places.{rule_of};
ghost use Rattle.entries.specs.Entries.{entry, entry_of};
ghost use Rattle.entries.specs.Ahead.{Judged, Laid, Left, cursor_at, one_of, rest_from};

use profile::read;
use rule::Rule;
use scan::least;
use statement::{Step, rule_again};
use text::{Place, Refusal, nowhere};
use variables::cell;
use words::{Front, front_of};

// The numbers of a head: the table of variables, the table of profiles, how many variables, profiles and rules there are, and room,
// which stays as it is.
pub const HEAD: usize = 1256;

pub const PROFILES_AT: usize = 1120;

pub const VARIABLE_COUNT: usize = 1248;

pub const PROFILE_COUNT: usize = 1249;

pub const RULE_COUNT: usize = 1250;

// The number of the refusal of a text that is too long.
const LONG_TEXT: u8 = 1;

// A rule, and the words of its pattern's front.
#[derive(Clone, Copy)]
pub struct Record {
    pub rule: Rule,
    pub front: Front,
}

// Why nothing is read: the head is too short, or the text is refused.
#[derive(Clone, Copy)]
pub enum Unread {
    Short,
    Refused(Refusal),
}

// ---- judging a text

// Copies numbers to a place of the head.
fn copy(head: &mut [usize], at: usize, numbers: &[usize])
    requires { at + length numbers.now ≤ length head.old }
    ensures { head.new ≡ paste head.old at numbers.now (length numbers.now) }
{
    head[at..at + numbers.len()].copy_from_slice(numbers);
}

// Writes what was read into a head.
fn keep(head: &mut [usize], vars: &[usize; 1120], profiles: &[usize; 128], counts: &[usize; 3])
    requires { 1256 ≤ length head.old }
    ensures { Laid head.old vars.now profiles.now counts.now head.new }
{
    copy(head, 0, vars);
    copy(head, PROFILES_AT, profiles);
    copy(head, VARIABLE_COUNT, counts);
}

// Judges a text, and answers how many rules it has. Where it is accepted, with as many rules as have room at most, the head tells its
// variables, its profiles and that number; else the head stays as it was.
pub fn judge(text: &[u8], head: &mut [usize], rooms: usize) -> Result<usize, Unread>
    ensures { Judged text.now head.old rooms result head.new }
{
    if head.len() < HEAD {
        return Err(Unread::Short);
    }
    if 65535 < text.len() {
        return Err(Unread::Refused(nowhere(LONG_TEXT)));
    }
    let mut vars = [0usize; 1120];
    let f = match read(text, &mut vars, rooms) {
        Ok(f) => f,
        Err(refusal) => return Err(Unread::Refused(refusal)),
    };
    let counts = [f.vars, f.count, f.rules];
    keep(head, &vars, &f.profiles, &counts);
    Ok(f.rules)
}

// ---- the rules of an accepted text, one by one

// A place among the rules of a text: the number of a profile, how many of its rules are left, and where they start.
#[derive(Clone, Copy)]
pub struct Cursor {
    pub profile: usize,
    pub left: usize,
    pub at: Place,
}

// The record of a rule, and where reading goes on.
#[derive(Clone, Copy)]
pub struct Next {
    pub record: Record,
    pub next: Cursor,
}

// At the first rule of a profile.
fn cursor_at(head: &[usize], i: usize) -> Cursor
    requires { i ≤ 32 }
    ensures { result ≡ cursor_at head.now i }
{
    let at = PROFILES_AT + 4 * i;
    Cursor {
        profile: i,
        left: cell(head, at + 3),
        at: Place(cell(head, at + 2)),
    }
}

// At the first rule of the first profile.
pub fn start(head: &[usize]) -> Cursor
    ensures { result ≡ cursor_at head.now 0 }
{
    cursor_at(head, 0)
}

// A rule with the words of its pattern's front.
fn record_of(text: &[u8], rule: Rule) -> Record
    ensures { entry_of text.now result ≡ entry rule.profile (rule_of text.now rule) }
{
    let pattern = rule.pattern;
    let front = front_of(text, pattern.from.0, pattern.end.0);
    Record { rule, front }
}

// The next rule of a cursor's profile.
fn next_here(text: &[u8], at: Cursor) -> Option<Next>
    ensures { Left text.now at result }
{
    if at.left == 0 {
        return None;
    }
    let profile = at.profile;
    let left = at.left - 1;
    let place = at.at;
    match rule_again(text, profile, place) {
        Ok(step) => match step {
            Step::Rule { rule, next } => Some(Next {
                record: record_of(text, rule),
                next: Cursor {
                    profile,
                    left,
                    at: next,
                },
            }),
            Step::Close { .. } => None,
        },
        Err(_) => None,
    }
}

// The next rule of a text whose head this is, and where reading goes on. Profiles without rules are passed over.
pub fn next_record(text: &[u8], head: &[usize], at: Cursor) -> Option<Next>
    ensures { rest_from text.now head.now at ≡ one_of text.now (rest_from text.now head.now) result }
{
    let n = least(32, cell(head, PROFILE_COUNT));
    let mut cursor = at;
    for i in at.profile..n {
        if let Some(next) = next_here(text, cursor) {
            return Some(next);
        }
        cursor = cursor_at(head, i + 1);
    }
    None
}
