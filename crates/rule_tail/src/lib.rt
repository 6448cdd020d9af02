// What follows the pattern of a rule, read from a text.
#![tactic(auto)]

ghost use Rattle.std.specs.Prelude.{◌≡◌};
ghost use Rattle.rule_tail.specs.Tails.{comma_at, leads_to_profile, perms_at, takes_target, target_at};
ghost use Rattle.rule_tail.specs.Places.{seen_comma, seen_perms, seen_target, target_after};

use modes::{Kind, Mode};
use names::NAME_BYTES;
use perms::Perms;
use perms_word::read_word;
use text::{BAD_FORM, BAD_PERMS, Place, Span, Stop, TOO_MUCH};
use tokens::next_token;

// What PERMS carry, and where reading goes on.
#[derive(Clone, Copy)]
pub struct PermsRead {
    pub perms: Perms,
    pub transition: Option<Mode>,
    pub next: Place,
}

// The PERMS at a place.
pub fn perms_at(text: &[u8], deny: bool, at: Place) -> Result<PermsRead, Stop>
    ensures { seen_perms result ≡ perms_at deny text.now at.0 }
{
    let t = next_token(text, at, b',').token()?;
    let place = t.start;
    if t.quoted | tokens::is_word(text, t, b",") {
        return Err(Stop {
            number: BAD_FORM,
            place,
        });
    }
    let word = tokens::content(text, t);
    let Some(w) = read_word(word, deny) else {
        return Err(Stop {
            number: BAD_PERMS,
            place,
        });
    };
    Ok(PermsRead {
        perms: w.perms,
        transition: w.transition,
        next: t.next,
    })
}

// A target, an empty span where there is none, and where reading goes on.
#[derive(Clone, Copy)]
pub struct TargetRead {
    pub target: Span,
    pub next: Place,
}

// Whether a mode leads to another profile.
fn leads_to_profile(kind: Kind) -> bool
    ensures { result ≡ leads_to_profile kind }
{
    matches!(kind, Kind::Profile | Kind::Child)
}

// Whether a target may follow: only after p and c modes.
pub fn takes_target(transition: Option<Mode>) -> bool
    ensures { result ≡ takes_target transition }
{
    match transition {
        None => false,
        Some(m) => leads_to_profile(m.kind),
    }
}

// The target after a ->.
fn target_after(text: &[u8], at: Place) -> Result<TargetRead, Stop>
    ensures { seen_target text.now result ≡ target_after text.now at.0 }
{
    let t = next_token(text, at, b',').token()?;
    let place = t.start;
    let name = tokens::content(text, t);
    if !names::name_form(name, t.quoted) {
        return Err(Stop {
            number: BAD_FORM,
            place,
        });
    }
    if NAME_BYTES < name.len() {
        return Err(Stop {
            number: TOO_MUCH,
            place,
        });
    }
    Ok(TargetRead {
        target: Span {
            from: t.from,
            end: t.end,
        },
        next: t.next,
    })
}

// The target at a place, if a -> stands there.
pub fn target_at(text: &[u8], transition: Option<Mode>, at: Place) -> Result<TargetRead, Stop>
    ensures { seen_target text.now result ≡ target_at transition text.now at.0 }
{
    if blanks::stands_at(text, at, b"->") {
        let arrow = blanks::standing_at(text, at);
        if takes_target(transition) {
            return target_after(text, Place(arrow.0 + 2));
        }
        return Err(Stop {
            number: BAD_PERMS,
            place: arrow,
        });
    }
    Ok(TargetRead {
        target: Span {
            from: Place(0),
            end: Place(0),
        },
        next: at,
    })
}

// The comma that ends a rule: where reading goes on after it.
pub fn comma_at(text: &[u8], at: Place) -> Result<Place, Stop>
    ensures { seen_comma result ≡ comma_at text.now at.0 }
{
    let t = next_token(text, at, b',').token()?;
    if tokens::is_word(text, t, b",") {
        return Ok(t.next);
    }
    Err(Stop {
        number: BAD_FORM,
        place: t.start,
    })
}
