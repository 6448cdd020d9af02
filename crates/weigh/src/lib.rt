// The rules of a profile, weighed one by one on a request.
#![tactic(auto)]

ghost use Rattle.std.specs.Prelude.{◌≡◌, List, ℕ};
ghost use Rattle.pattern.specs.Faults.{pattern_fault};
ghost use Rattle.pattern.specs.Table.{env};
ghost use Rattle.sizes.specs.Sizes.{Known};
ghost use Rattle.glob.specs.Glob.{matched_in};
ghost use Rattle.rule.specs.Places.{rule_of};
ghost use Rattle.text.specs.Places.{span_of};
ghost use Rattle.statement.specs.Steps.{rules_from};
ghost use Rattle.findings.specs.Findings.{findings};
ghost use Rattle.findings.specs.Weighed.{nothing, seen_findings, weighed};
ghost use Rattle.weigh.specs.Weigh.{Fits, gathered_of, weighed_by};

use findings::{Carried, Choice, Findings, allow, deny};
use glob::match_good;
use measure::sizes_of;
use perms::Perms;
use rule::Rule;
use statement::{Step, rule_at};
use text::Place;

// The findings of no rule.
pub fn no_findings() -> Findings
    ensures { (s : List ℕ) → seen_findings s result ≡ nothing }
{
    let none = Carried {
        all: Perms(0),
        audited: Perms(0),
    };
    Findings {
        allowed: none,
        denied: none,
        exact: Choice::None,
        others: Choice::None,
    }
}

// The findings with one rule more, under the first n variables and their sizes.
fn weigh(
    text: &[u8],
    vars: &[usize],
    n: usize,
    sizes: &[usize; 132],
    path: &[u8],
    owner: bool,
    rule: Rule,
    found: Findings,
) -> Findings
    ensures { seen_findings text.now result
        ≡ weighed_by owner (matched_in text.now vars.now n sizes.now (span_of text.now rule.pattern) path.now) (rule_of text.now rule) (seen_findings text.now found) }
{
    if rule.owner & !owner {
        return found;
    }
    let pattern = rule.pattern;
    let m = match_good(text, vars, n, sizes, pattern.from.0, pattern.end.0, path);
    if m.some {
        if rule.deny {
            return deny(text, rule, found);
        }
        return allow(text, m.exact, rule, found);
    }
    found
}

// The findings of count rules from a place on, where the text and the path fit and the sizes of the first n variables are known.
fn gather(
    text: &[u8],
    vars: &[usize],
    n: usize,
    sizes: &[usize; 132],
    path: &[u8],
    owner: bool,
    count: usize,
    at: Place,
) -> Findings
    requires known { Known text.now vars.now n sizes.now }
    requires fits { Fits text.now path.now }
    ensures { seen_findings text.now result
        ≡ weighed (findings (env text.now vars.now n) (record { path = path.now; owner = owner }) (rules_from count (pattern_fault (env text.now vars.now n)) text.now at.0)) }
{
    let mut found = no_findings();
    let mut place = at;
    for _ in 0..count {
        match rule_at(text, vars, n, sizes, 0, place) {
            Ok(step) => match step {
                Step::Rule { rule, next } => {
                    found = weigh(text, vars, n, sizes, path, owner, rule, found);
                    place = next;
                }
                Step::Close { .. } => {
                    return found;
                }
            },
            Err(_) => {
                return found;
            }
        }
    }
    found
}

// The findings of count rules from a place on, under the first n variables; none where the text or the path is too long to be answered.
pub fn findings_of(
    text: &[u8],
    vars: &[usize],
    n: usize,
    path: &[u8],
    owner: bool,
    count: usize,
    at: Place,
) -> Findings
    ensures { seen_findings text.now result
        ≡ gathered_of text.now (env text.now vars.now n) (record { path = path.now; owner = owner }) count at.0 }
{
    if 65535 < text.len() {
        return no_findings();
    }
    if 4095 < path.len() {
        return no_findings();
    }
    let known = sizes_of(text, vars, n);
    gather(text, vars, n, &known.table, path, owner, count, at)
}
