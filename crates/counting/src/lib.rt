// How many samples have a property, such as to be held back (document 02, Q-2).
#![tactic(auto)]

ghost use Rattle.std.specs.Prelude.{◌≡◌, ◌+◌, ◌-◌, ◌≤◌, ◌<◌, Bool, List, ℕ, ℤ, length, take};
ghost use Rattle.counting.specs.Counting.{count_of, Tells};

// A count within a span fits 16 bits, so that the compiler takes eight samples at a time.
const SPAN: usize = 32768;

// How many k from `from` on and below `to`, a span at most, have the property.
fn count_span<F: Fn(usize) -> bool>(from: usize, to: usize, has: &F) -> u16
    requires order { from ≤ to }
    requires short { to ≤ from + SPAN }
    requires callable { (k : ℕ) → k < to → F.pre has.now k }
    ensures within { result ≤ to - from }
    ensures counted { (p : ℤ → Bool) (xs : List ℤ) → to ≤ length xs → Tells (F.post has.now) to p xs → count_of p (take from xs) + result ≡ count_of p (take to xs) }
{
    let mut count: u16 = 0;
    for k in from..to {
        count += u16::from(has(k));
    }
    count
}

// How many k below n have the property: as many as samples have p, where each sample k has p just where k has the property.
pub fn count_where<F: Fn(usize) -> bool>(n: usize, has: F) -> usize
    requires { (k : ℕ) → k < n → F.pre has k }
    ensures { (p : ℤ → Bool) (xs : List ℤ) → length xs ≡ n → Tells (F.post has) n p xs → result ≡ count_of p xs }
{
    let mut count: usize = 0;
    for s in 0..n / SPAN {
        count += usize::from(count_span(SPAN * s, SPAN * s + SPAN, &has));
    }
    count + usize::from(count_span(n - n % SPAN, n, &has))
}
