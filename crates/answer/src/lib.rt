// The answer that findings give.
#![tactic(auto)]

ghost use Rattle.std.specs.Prelude.{◌≡◌, List, [], ℕ};
ghost use Rattle.std.specs.Int.Bits.{bit_and};
ghost use Rattle.perms.specs.Sets.{perms};
ghost use Rattle.text.specs.Places.{span_of};
ghost use Rattle.findings.specs.Weighed.{seen_choice, seen_findings};
ghost use Rattle.answer.specs.Answers.{execute_by, is_mode, refusal, target_of, whole_of};
ghost use Rattle.answer.specs.Parts.{Granted, Recorded, answer_to, first_of, target_by};

use findings::{Choice, Findings};
use modes::Execute;
use perms::Perms;
use text::{Place, Refusal, Span};

// The target of a transition: its bytes and how many they are; zero beyond them. So C's answer holds them, at a fixed size; there
// is no heap to grow a list on.
#[derive(Clone, Copy)]
pub struct Target {
    pub bytes: [u8; 255],
    pub len: usize,
}

// The whole answer. A refusal grants and records nothing and names no target.
#[derive(Clone, Copy)]
pub struct Answer {
    pub verdict: Result<(), Refusal>,
    pub granted: Perms,
    pub recorded: Perms,
    pub execute: Execute,
    pub target: Target,
}

// An answer whose target is told by its place in the text, an empty one where there is none.
#[derive(Clone, Copy)]
pub struct Brief {
    pub verdict: Result<(), Refusal>,
    pub granted: Perms,
    pub recorded: Perms,
    pub execute: Execute,
    pub target: Span,
}

// ---- execute

// The exact transitions if any, else the others.
fn prefer(exact: Choice, others: Choice) -> Choice
    ensures { (s : List ℕ) → seen_choice s result ≡ first_of (seen_choice s exact) (seen_choice s others) }
{
    match exact {
        Choice::None => others,
        Choice::Single { .. } => exact,
        Choice::Several => exact,
    }
}

// What x is answered.
fn execute_of(asked: Perms, denied: Perms, choice: Choice) -> Execute
    ensures { (s : List ℕ) → result ≡ execute_by asked.0 denied.0 (seen_choice s choice) }
{
    if !asked.contains(Perms::EXECUTE) {
        return Execute::NotAsked;
    }
    if denied.contains(Perms::EXECUTE) {
        return Execute::Denied;
    }
    match choice {
        Choice::None => Execute::Denied,
        Choice::Single { mode, .. } => Execute::ByMode(mode),
        Choice::Several => Execute::Conflict,
    }
}

// Whether x is granted by a mode.
fn is_mode(execute: Execute) -> bool
    ensures { result ≡ is_mode execute }
{
    matches!(execute, Execute::ByMode(_))
}

// ---- granted, recorded, target

// The permissions of both sets.
fn both(a: Perms, b: Perms) -> Perms
    ensures { result ≡ perms (bit_and a.0 b.0) }
{
    Perms(a.0 & b.0)
}

// The asked permissions that are allowed and not denied; x only with a mode.
fn granted_of(asked: Perms, allowed: Perms, denied: Perms, mode: bool) -> Perms
    ensures { Granted asked.0 allowed.0 denied.0 mode result.0 }
{
    let granted = both(asked, allowed).difference(denied);
    if mode {
        return granted;
    }
    granted.difference(Perms::EXECUTE)
}

// The granted permissions with an audit allow, the refused ones that no rule denies, the denied ones with an audit deny.
fn recorded_of(asked: Perms, granted: Perms, found: Findings) -> Perms
    ensures { Recorded asked.0 granted.0 found.allowed.audited.0 found.denied.all.0 found.denied.audited.0 result.0 }
{
    let denied = found.denied.all;
    let refused = asked.difference(granted);
    let by_allow = both(granted, found.allowed.audited);
    let by_deny = both(both(refused, denied), found.denied.audited);
    by_allow.union(by_deny).union(refused.difference(denied))
}

// No target.
fn no_target() -> Span
    ensures { (s : List ℕ) → span_of s result ≡ [] }
{
    Span {
        from: Place(0),
        end: Place(0),
    }
}

// The place of the target that is named with a mode.
fn target_of(mode: bool, choice: Choice) -> Span
    ensures { (s : List ℕ) → span_of s result ≡ target_by mode (seen_choice s choice) }
{
    if !mode {
        return no_target();
    }
    match choice {
        Choice::None => no_target(),
        Choice::Single { target, .. } => target,
        Choice::Several => no_target(),
    }
}

// The target of these bytes, of which at most 255 have room.
fn target_from(name: &[u8]) -> Target
    ensures { result ≡ target_of name.now }
{
    let mut bytes = [0; 255];
    let len = scan::least(name.len(), 255);
    bytes[..len].copy_from_slice(&name[..len]);
    Target { bytes, len }
}

// ---- the answer

// The answer that findings give to the asked permissions.
pub fn finish_brief(found: Findings, asked: Perms) -> Brief
    ensures { (s : List ℕ) → whole_of s result ≡ answer_to (seen_findings s found) asked.0 }
{
    let wanted = both(asked, Perms(127));
    let choice = prefer(found.exact, found.others);
    let execute = execute_of(wanted, found.denied.all, choice);
    let by_mode = is_mode(execute);
    let granted = granted_of(wanted, found.allowed.all, found.denied.all, by_mode);
    Brief {
        verdict: Ok(()),
        granted,
        recorded: recorded_of(wanted, granted, found),
        execute,
        target: target_of(by_mode, choice),
    }
}

// A refusal.
pub fn refused_brief(why: Refusal) -> Brief
    ensures { (s : List ℕ) → whole_of s result ≡ refusal why }
{
    Brief {
        verdict: Err(why),
        granted: Perms(0),
        recorded: Perms(0),
        execute: Execute::NotAsked,
        target: no_target(),
    }
}

// The whole answer: with the bytes of its target.
pub fn fill(text: &[u8], b: Brief) -> Answer
    ensures { result ≡ whole_of text.now b }
{
    Answer {
        verdict: b.verdict,
        granted: b.granted,
        recorded: b.recorded,
        execute: b.execute,
        target: target_from(scan::span(text, b.target.from.0, b.target.end.0)),
    }
}

// The whole answer that findings give.
pub fn finish(text: &[u8], found: Findings, asked: Perms) -> Answer
    ensures { result ≡ answer_to (seen_findings text.now found) asked.0 }
{
    fill(text, finish_brief(found, asked))
}

// A refusal, whose target is empty in any text.
pub fn refused(why: Refusal) -> Answer
    ensures { result ≡ refusal why }
{
    fill(b"", refused_brief(why))
}
