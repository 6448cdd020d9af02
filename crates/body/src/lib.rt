// The rules of a profile, read from a text.
#![tactic(auto)]

ghost use Rattle.std.specs.Prelude.{◌≡◌};
ghost use Rattle.faults.specs.Sized.{fault_by};
ghost use Rattle.rule.specs.Rules.{end_at, rules_at};
ghost use Rattle.statement.specs.Steps.{counted, counted_end};
ghost use Rattle.body.specs.Places.{seen_rules};

use statement::{Step, rule_at};
use text::{Place, Stop, TOO_MUCH};

// The number of rules and where reading goes on.
#[derive(Clone, Copy)]
pub struct Rules {
    pub count: usize,
    pub next: Place,
}

// The } at a place, after so many rules, where no more is allowed.
fn rules_end(text: &[u8], count: usize, at: Place) -> Result<Rules, Stop>
    ensures { seen_rules result ≡ counted_end count (end_at text.now at.0) }
{
    if blanks::stands_at(text, at, b"}") {
        let brace = blanks::standing_at(text, at);
        return Ok(Rules {
            count,
            next: Place(brace.0 + 1),
        });
    }
    let q = rule::qualifiers_at(text, at);
    let token = rule::pattern_at(text, q)?;
    Err(Stop {
        number: TOO_MUCH,
        place: token.start,
    })
}

// The rules of a profile, where so many are allowed.
pub fn rules_at(
    text: &[u8],
    vars: &[usize],
    n: usize,
    sizes: &[usize; 132],
    left: usize,
    at: Place,
) -> Result<Rules, Stop>
    ensures { seen_rules result ≡ counted (rules_at left (fault_by text.now vars.now n sizes.now) text.now at.0) }
{
    let mut place = at;
    for count in 0..left {
        let step = rule_at(text, vars, n, sizes, 0, place)?;
        match step {
            Step::Rule { rule: _, next } => {
                place = next;
            }
            Step::Close { next } => {
                return Ok(Rules { count, next });
            }
        }
    }
    rules_end(text, left, place)
}
