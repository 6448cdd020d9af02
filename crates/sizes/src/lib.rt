// The size of a list of expansions, and of lists put together.
#![tactic(auto)]

ghost use Rattle.std.specs.Prelude.{◌≡◌};
ghost use Rattle.sizes.specs.Sizes.{limit_of, times_of, plus_of};

// The size of a list of expansions: how many there are, up to 257, and the most pieces of one, up to 1025;
// whether one has no piece; whether each has no piece or begins with a literal /.
#[derive(Clone, Copy)]
pub struct Size {
    pub count: usize,
    pub longest: usize,
    pub empty: bool,
    pub slashed: bool,
}

fn limit(n: usize, m: usize) -> usize
    ensures { result ≡ limit_of n m }
{
    if n == 0 { 0 } else { m.min(1025) }
}

// The size of neighbours.
pub fn times(a: Size, b: Size) -> Size
    ensures { result ≡ times_of a b }
{
    let n = a.count.min(257) * b.count.min(257);
    let m = a.longest.min(1025) + b.longest.min(1025);
    Size {
        count: n.min(257),
        longest: limit(n, m),
        empty: a.empty & b.empty,
        slashed: (n == 0) | (a.slashed & (!a.empty | b.slashed)),
    }
}

// The size of choices of two kinds.
pub fn plus(a: Size, b: Size) -> Size
    ensures { result ≡ plus_of a b }
{
    let n = a.count.min(257) + b.count.min(257);
    Size {
        count: n.min(257),
        longest: a.longest.min(1025).max(b.longest.min(1025)),
        empty: a.empty | b.empty,
        slashed: a.slashed & b.slashed,
    }
}
