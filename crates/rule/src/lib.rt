// The head of a rule, read from a text: its qualifiers and its pattern.
#![tactic(auto)]

ghost use Rattle.std.specs.Prelude.{◌≡◌};
ghost use Rattle.tokens.specs.Tokens.{no_stop, token_at};
ghost use Rattle.tokens.specs.Places.{seen, seen_token};
ghost use Rattle.rule.specs.Rules.{pattern_from};
ghost use Rattle.rule.specs.Places.{Denied, Qualified, Taken, seen_qualifiers};

use modes::Mode;
use perms::Perms;
use text::{NOT_TAKEN, Place, Span, Stop};
use tokens::{Read, Token};

// ---- a rule

// A rule of the profile with this number: its pattern and its target, empty where there is none, are places of the text.
#[derive(Clone, Copy)]
pub struct Rule {
    pub profile: usize,
    pub audit: bool,
    pub deny: bool,
    pub owner: bool,
    pub perms: Perms,
    pub transition: Option<Mode>,
    pub pattern: Span,
    pub target: Span,
}

// ---- the qualifiers

// Whether a word stands at a place, where reading goes on, and the token there.
#[derive(Clone, Copy)]
struct Optional {
    found: bool,
    next: Place,
    token: Read,
}

// A word that may stand at a place, where the next token is known. Put into its callers, so that each compares with a known word.
#[inline(always)]
fn take_word(text: &[u8], at: Place, token: Read, word: &[u8]) -> Optional
    ensures { seen text.now token ≡ token_at no_stop text.now at.0 → Taken text.now word.now at.0 result }
{
    let Read::Found(t) = token else {
        return Optional {
            found: false,
            next: at,
            token,
        };
    };
    if tokens::is_word(text, t, word) {
        let next = t.next;
        let after = tokens::next_token(text, next, 0);
        return Optional {
            found: true,
            next,
            token: after,
        };
    }
    Optional {
        found: false,
        next: at,
        token,
    }
}

// deny, unless allow stands there.
fn take_deny(text: &[u8], allow: Optional) -> Optional
    ensures { seen text.now allow.token ≡ token_at no_stop text.now allow.next.0 → Denied text.now allow result }
{
    let next = allow.next;
    let token = allow.token;
    if allow.found {
        return Optional {
            found: false,
            next,
            token,
        };
    }
    take_word(text, next, token, b"deny")
}

// The qualifiers of a rule, whether there are some, where reading goes on, and the token there.
#[derive(Clone, Copy)]
pub struct Qualifiers {
    pub audit: bool,
    pub deny: bool,
    pub owner: bool,
    pub some: bool,
    pub next: Place,
    pub token: Read,
}

// The qualifiers that stand at a place.
pub fn qualifiers_at(text: &[u8], at: Place) -> Qualifiers
    ensures { Qualified text.now at.0 result }
{
    let first = tokens::next_token(text, at, 0);
    let audit = take_word(text, at, first, b"audit");
    let after_audit = audit.next;
    let second = audit.token;
    let allow = take_word(text, after_audit, second, b"allow");
    let deny = take_deny(text, allow);
    let after_deny = deny.next;
    let third = deny.token;
    let owner = take_word(text, after_deny, third, b"owner");
    let next = owner.next;
    let token = owner.token;
    Qualifiers {
        audit: audit.found,
        deny: deny.found,
        owner: owner.found,
        some: audit.found | allow.found | deny.found | owner.found,
        next,
        token,
    }
}

// ---- the pattern

// The token of the pattern after the qualifiers.
pub fn pattern_at(text: &[u8], q: Qualifiers) -> Result<Token, Stop>
    ensures { seen_token text.now result ≡ pattern_from text.now (seen text.now q.token) (seen_qualifiers q) }
{
    let next = q.next;
    if keywords::is_not_taken(text, next, true) {
        return Err(Stop {
            number: NOT_TAKEN,
            place: blanks::standing_at(text, next),
        });
    }
    let token = q.token;
    let t = token.token()?;
    if q.some & tokens::is_word(text, t, b"{") {
        return Err(Stop {
            number: NOT_TAKEN,
            place: t.start,
        });
    }
    Ok(t)
}
