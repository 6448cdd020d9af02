// One rule of a profile, or the } that ends it, read from a text.
#![tactic(auto)]

ghost use Rattle.std.specs.Prelude.{◌≡◌};
ghost use Rattle.tokens.specs.Places.{token_of};
ghost use Rattle.faults.specs.Sized.{fault_by};
ghost use Rattle.rule.specs.Rules.{rule_at, rule_end, rule_from};
ghost use Rattle.rule.specs.Places.{seen_qualifiers};
ghost use Rattle.statement.specs.Steps.{start_at};
ghost use Rattle.statement.specs.Places.{profile_in, profile_of, seen_rule, seen_start, seen_step};

use rule::{Qualifiers, Rule};
use rule_tail::PermsRead;
use text::{Place, Span, Stop};
use tokens::Token;

// A rule and where reading goes on.
#[derive(Clone, Copy)]
pub struct RuleRead {
    pub rule: Rule,
    pub next: Place,
}

// The rule with these qualifiers, this pattern and what PERMS carry, by what follows them.
fn rule_end(
    text: &[u8],
    profile: usize,
    q: Qualifiers,
    token: Token,
    p: PermsRead,
) -> Result<RuleRead, Stop>
    ensures result_value { seen_rule text.now result ≡ rule_end text.now (seen_qualifiers q) (token_of text.now token) (record { perms = p.perms; transition = p.transition; next = p.next.0 }) }
    ensures profile { profile_of profile result ≡ profile }
{
    let to = rule_tail::target_at(text, p.transition, p.next)?;
    let next = rule_tail::comma_at(text, to.next)?;
    Ok(RuleRead {
        rule: Rule {
            profile,
            audit: q.audit,
            deny: q.deny,
            owner: q.owner,
            perms: p.perms,
            transition: p.transition,
            pattern: Span {
                from: token.from,
                end: token.end,
            },
            target: to.target,
        },
        next,
    })
}

// The rule with these qualifiers and this pattern, which is not judged.
fn rule_rest(text: &[u8], profile: usize, q: Qualifiers, token: Token) -> Result<RuleRead, Stop>
    ensures result_value { seen_rule text.now result ≡ rule_from (λ _. 0) text.now (seen_qualifiers q) (token_of text.now token) }
    ensures profile { profile_of profile result ≡ profile }
{
    let p = rule_tail::perms_at(text, q.deny, token.next)?;
    rule_end(text, profile, q, token, p)
}

// The rule with these qualifiers and this pattern, under the first n variables and their sizes.
fn rule_from(
    text: &[u8],
    vars: &[usize],
    n: usize,
    sizes: &[usize; 132],
    profile: usize,
    q: Qualifiers,
    token: Token,
) -> Result<RuleRead, Stop>
    ensures result_value { seen_rule text.now result ≡ rule_from (fault_by text.now vars.now n sizes.now) text.now (seen_qualifiers q) (token_of text.now token) }
    ensures profile { profile_of profile result ≡ profile }
{
    let fault = faults::pattern_fault(text, vars, n, sizes, token.from.0, token.end.0);
    if fault != 0 {
        return Err(Stop {
            number: fault,
            place: token.start,
        });
    }
    rule_rest(text, profile, q, token)
}

// What stands where a rule could start: the } that ends the profile and where reading goes on behind it, or the qualifiers of a
// rule and the token of its pattern.
#[derive(Clone, Copy)]
pub enum Start {
    Close { next: Place },
    Pattern { q: Qualifiers, token: Token },
}

// What stands at a place.
fn start_at(text: &[u8], at: Place) -> Result<Start, Stop>
    ensures { seen_start text.now result ≡ start_at text.now at.0 }
{
    if blanks::stands_at(text, at, b"}") {
        let brace = blanks::standing_at(text, at);
        return Ok(Start::Close {
            next: Place(brace.0 + 1),
        });
    }
    let q = rule::qualifiers_at(text, at);
    let token = rule::pattern_at(text, q)?;
    Ok(Start::Pattern { q, token })
}

// One rule more, or the } that ends the profile, and where reading goes on.
#[derive(Clone, Copy)]
pub enum Step {
    Rule { rule: Rule, next: Place },
    Close { next: Place },
}

// The rule or the } at a place; blanks and comments in front of it are passed over once.
pub fn rule_at(
    text: &[u8],
    vars: &[usize],
    n: usize,
    sizes: &[usize; 132],
    profile: usize,
    at: Place,
) -> Result<Step, Stop>
    ensures result_value { seen_step text.now result ≡ rule_at (fault_by text.now vars.now n sizes.now) text.now at.0 }
    ensures profile { profile_in profile result ≡ profile }
{
    let place = blanks::standing_at(text, at);
    let start = start_at(text, place)?;
    match start {
        Start::Close { next } => Ok(Step::Close { next }),
        Start::Pattern { q, token } => {
            let read = rule_from(text, vars, n, sizes, profile, q, token)?;
            Ok(Step::Rule {
                rule: read.rule,
                next: read.next,
            })
        }
    }
}

// The rule or the } at a place of a text that was accepted: the rule's pattern is not judged again.
pub fn rule_again(text: &[u8], profile: usize, at: Place) -> Result<Step, Stop>
    ensures result_value { seen_step text.now result ≡ rule_at (λ _. 0) text.now at.0 }
    ensures profile { profile_in profile result ≡ profile }
{
    let place = blanks::standing_at(text, at);
    let start = start_at(text, place)?;
    match start {
        Start::Close { next } => Ok(Step::Close { next }),
        Start::Pattern { q, token } => {
            let read = rule_rest(text, profile, q, token)?;
            Ok(Step::Rule {
                rule: read.rule,
                next: read.next,
            })
        }
    }
}
