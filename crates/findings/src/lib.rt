// The findings of rules on a request, gathered one matching rule at a time.
#![tactic(auto)]

ghost use Rattle.std.specs.Prelude.{◌≡◌, if◌then◌else◌};
ghost use Rattle.rule.specs.Places.{rule_of};
ghost use Rattle.text.specs.Places.{span_of};
ghost use Rattle.findings.specs.Findings.{same_move};
ghost use Rattle.findings.specs.Weighed.{Carries, allowing, denying, seen_choice, seen_findings, with_move, with_transition};

use modes::Mode;
use perms::Perms;
use rule::Rule;
use text::Span;

// The members of a set of transitions: none, one, or more.
#[derive(Clone, Copy)]
pub enum Choice {
    None,
    Single { mode: Mode, target: Span },
    Several,
}

// The permissions that matching rules carry, and those among them from audit rules.
#[derive(Clone, Copy)]
pub struct Carried {
    pub all: Perms,
    pub audited: Perms,
}

// What the matching allow rules and deny rules carry, and the transitions of exact and of other matches.
#[derive(Clone, Copy)]
pub struct Findings {
    pub allowed: Carried,
    pub denied: Carried,
    pub exact: Choice,
    pub others: Choice,
}

// What is carried with a rule more.
fn carry(carried: Carried, audit: bool, perms: Perms) -> Carried
    ensures { Carries carried audit perms result }
{
    let all = carried.all.union(perms);
    let before = carried.audited;
    if audit {
        return Carried {
            all,
            audited: before.union(perms),
        };
    }
    Carried {
        all,
        audited: before,
    }
}

// Whether two transitions are the same: mode and bytes of the target.
fn same_move(text: &[u8], a: Mode, from: Span, b: Mode, to: Span) -> bool
    ensures { result ≡ same_move (record { mode = a; target = span_of text.now from }) (record { mode = b; target = span_of text.now to }) }
{
    let first = scan::span(text, from.from.0, from.end.0);
    let second = scan::span(text, to.from.0, to.end.0);
    modes::same_mode(a, b) & scan::same_bytes(first, second)
}

// A set of transitions with one member more.
fn with_move(text: &[u8], choice: Choice, mode: Mode, target: Span) -> Choice
    ensures { seen_choice text.now result ≡ with_move (seen_choice text.now choice) (record { mode = mode; target = span_of text.now target }) }
{
    match choice {
        Choice::None => Choice::Single { mode, target },
        Choice::Single {
            mode: first,
            target: named,
        } => {
            if same_move(text, first, named, mode, target) {
                return choice;
            }
            Choice::Several
        }
        Choice::Several => Choice::Several,
    }
}

// A set of transitions with that of a rule, if it has one and counts.
fn with_transition(
    text: &[u8],
    choice: Choice,
    counts: bool,
    transition: Option<Mode>,
    target: Span,
) -> Choice
    ensures { seen_choice text.now result ≡ (if counts then with_transition (seen_choice text.now choice) transition (span_of text.now target) else seen_choice text.now choice) }
{
    if counts {
        return match transition {
            None => choice,
            Some(mode) => with_move(text, choice, mode, target),
        };
    }
    choice
}

// The findings with a matching allow rule more, which matches exactly or otherwise.
pub fn allow(text: &[u8], exact: bool, rule: Rule, found: Findings) -> Findings
    ensures { seen_findings text.now result ≡ allowing exact (rule_of text.now rule) (seen_findings text.now found) }
{
    let perms = rule.perms;
    let transition = rule.transition;
    let target = rule.target;
    let allowed = found.allowed;
    let denied = found.denied;
    let exacts = found.exact;
    let others = found.others;
    Findings {
        allowed: carry(allowed, rule.audit, perms),
        denied,
        exact: with_transition(text, exacts, exact, transition, target),
        others: with_transition(text, others, !exact, transition, target),
    }
}

// The findings with a matching deny rule more.
pub fn deny(text: &[u8], rule: Rule, found: Findings) -> Findings
    ensures { seen_findings text.now result ≡ denying (rule_of text.now rule) (seen_findings text.now found) }
{
    let perms = rule.perms;
    let allowed = found.allowed;
    let denied = found.denied;
    let exact = found.exact;
    let others = found.others;
    Findings {
        allowed,
        denied: carry(denied, rule.audit, perms),
        exact,
        others,
    }
}
