// Classes of a pattern.
#![tactic(auto)]

ghost use Rattle.std.specs.Prelude.{◌≡◌};
ghost use Rattle.scan.specs.Bytes.{between, some};
ghost use Rattle.class.specs.Class.{Range, good_class, good_range, in_class, member_byte, members, negated, ranges};
ghost use Rattle.class.specs.Members.{left};

use scan::is_between;

// The ranges of a class that are still to come, each by its two ends; a byte by itself is a range too.
#[derive(Drop)]
struct Ranges<'a> {
    left: &'a [u8],
}

impl<'a> Iterator for Ranges<'a> {
    ghost use Rattle.std.specs.Iterator.{YieldsFirstBy, item_count};
    ghost use Rattle.class.specs.Members.{range, left};

    type Item = (u8, u8);

    ghost next_gives = { YieldsFirstBy range left };

    ghost remaining = { item_count left };

    #[inline]
    fn next(&mut self) -> Option<(u8, u8)> {
        if let [low, b'-', high, rest @ ..] = self.left {
            self.left = rest;
            return Some((*low, *high));
        }
        let (low, rest) = self.left.split_first()?;
        self.left = rest;
        Some((*low, *low))
    }
}

// Whether the class lists the bytes that it does not take.
fn negated(class: &[u8]) -> bool
    ensures { result ≡ negated class.now }
{
    matches!(class, [b'^', ..])
}

// The ranges of a class.
fn members(class: &[u8]) -> Ranges
    ensures { left result ≡ members class.now }
{
    if let [b'^', rest @ ..] = class {
        return Ranges { left: rest };
    }
    Ranges { left: class }
}

// Whether some range of the members holds the byte. By hand: an iterator gives the two ends of a range as one value, which costs
// half as much again for each byte of a path.
fn is_listed(members: &[u8], b: u8) -> bool
    ensures { result ≡ some (λ (r : Range). between r.low r.high b) (ranges 0 members.now) }
{
    let mut left = members;
    while let [low, behind @ ..] = left {
        if let [_, b'-', high, rest @ ..] = left {
            if is_between(*low, *high, b) {
                return true;
            }
            left = rest;
        } else {
            if is_between(*low, *low, b) {
                return true;
            }
            left = behind;
        }
    }
    false
}

// Whether a class takes the byte, by what stands in its brackets.
pub fn in_class(class: &[u8], b: u8) -> bool
    ensures { result ≡ in_class class.now b }
{
    let listed = is_listed(members(class).left, b) & (b != b'/');
    if negated(class) {
        return !listed;
    }
    listed
}

// Whether a byte may be a member.
fn is_member(b: u8) -> bool
    ensures { result ≡ member_byte b }
{
    matches!(b, b'a'..=b'z' | b'A'..=b'Z' | b'0'..=b'9' | b'.' | b'_')
}

// Whether two bytes may be the ends of a range.
fn is_good(low: u8, high: u8) -> bool
    ensures { result ≡ good_range (record { low = low; high = high }) }
{
    is_member(low) & is_member(high) & (low <= high)
}

// Whether a class has members, all of the form asked for.
pub fn good_class(class: &[u8]) -> bool
    ensures { result ≡ good_class class.now }
{
    let mut ranges = members(class);
    if ranges.left.is_empty() {
        return false;
    }
    ranges.all(|(low, high)| is_good(low, high))
}
