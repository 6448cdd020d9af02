// Bytes compared and looked for.
#![tactic(auto)]

ghost use Rattle.std.specs.Prelude.{◌≡◌, min, drop};
ghost use Rattle.scan.specs.Bytes.{begins, between, span, same, holds, EndsRun};

// Whether two slices hold the same bytes.
pub fn same_bytes(a: &[u8], b: &[u8]) -> bool
    ensures { result ≡ same a.now b.now }
{
    a == b
}

// Whether a byte stands in a slice.
pub fn holds_byte(s: &[u8], b: u8) -> bool
    ensures { result ≡ holds b s.now }
{
    s.contains(&b)
}

// The bytes of a text from place a to before place e, as many as there are.
pub fn span(text: &[u8], a: usize, e: usize) -> &[u8]
    ensures { result.now ≡ span text.now a e }
{
    if e <= text.len() {
        if a <= e {
            return &text[a..e];
        }
        return &text[0..0];
    }
    if a <= text.len() {
        return &text[a..];
    }
    &text[0..0]
}

// The lower of two numbers.
pub fn least(a: usize, b: usize) -> usize
    ensures { result ≡ min a b }
{
    if a < b { a } else { b }
}

// Whether the byte c stands at a place.
pub fn begins_at(s: &[u8], at: usize, c: u8) -> bool
    ensures { result ≡ begins c (drop at s.now) }
{
    if at < s.len() {
        return s[at] == c;
    }
    false
}

// Whether a byte is one of those from low to high.
pub fn is_between(low: u8, high: u8, b: u8) -> bool
    ensures { result ≡ between low high b }
{
    (low <= b) & (b <= high)
}

// The place after the bytes that a test takes, from a place on.
pub fn end_of<F: Fn(u8) -> bool>(s: &[u8], at: usize, takes: F) -> usize
    requires { F.IsAlwaysCallable takes }
    ensures { EndsRun (F.post takes) s.now at result }
{
    for i in at..s.len() {
        if !takes(s[i]) {
            return i;
        }
    }
    at.max(s.len())
}
