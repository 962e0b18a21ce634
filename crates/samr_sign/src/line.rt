//! The counts of the planes on one axis: planes without a tag, and where a cut may lie.

ghost use Rattle.std.specs.Prelude.{◌≡◌, ◌+◌, ◌-◌, ◌<◌, ◌≤◌, length, Option, if◌then◌else◌};
ghost use Rattle.std.specs.List.{suffix_len};
ghost use Rattle.samr_sign.specs.Line.{leading, trailing, kept, admissible, off, nearer, is_zero_cut, zero_cut, bend, opposite, is_turn, jump};

/// How many planes without a tag come first.
pub fn leading(counts: &[u64]) -> usize
    ensures value { result ≡ leading counts.now }
    ensures within { result ≤ length counts.now }
{
    for (place, count) in counts.iter().enumerate() {
        if *count != 0 {
            return place;
        }
    }
    counts.len()
}

/// How many planes there are without those at the end that have no tag.
pub fn end(counts: &[u64]) -> usize
    ensures value { result + trailing counts.now ≡ length counts.now }
{
    let mut end = counts.len();
    while end > 0 && counts[end - 1] == 0 {
        end -= 1;
    }
    end
}

/// The counts from the first plane with a tag to the last.
pub fn kept(counts: &[u64]) -> &[u64]
    ensures { result.now ≡ kept counts.now }
{
    let end = end(counts);
    let first = leading(counts);
    if end < first {
        return &[];
    }
    &counts[first..end]
}

/// Whether a cut leaves enough planes on both sides.
fn admissible(least: u64, planes: usize, c: usize) -> bool
    ensures { result ≡ admissible least planes c }
{
    if (c as u64) < least {
        return false;
    }
    least <= planes.saturating_sub(c) as u64
}

/// Twice the distance of a cut's plane from the middle.
fn off(planes: usize, c: usize) -> u128
    ensures { result ≡ off planes c }
{
    (2 * c as u128 + 1).abs_diff(planes as u128)
}

/// Of two cuts the one nearer to the middle, the earlier on a tie.
fn nearer(planes: usize, best: Option<usize>, c: usize) -> Option<usize>
    ensures { result ≡ nearer planes best c }
{
    match best {
        None => Some(c),
        Some(b) => {
            if off(planes, c) < off(planes, b) {
                Some(c)
            } else {
                Some(b)
            }
        }
    }
}

/// Whether an admissible plane has no tag.
fn is_zero_cut(least: u64, s: &[u64], c: usize) -> bool
    requires { c < length s.now }
    ensures { result ≡ is_zero_cut least s.now c }
{
    if !admissible(least, s.len(), c) {
        return false;
    }
    s[c] == 0
}

/// The nearer of a cut and this one, if this one is admissible and has no tag.
fn nearer_zero(least: u64, s: &[u64], best: Option<usize>, c: usize) -> Option<usize>
    requires { c < length s.now }
    ensures { result ≡ (if is_zero_cut least s.now c then nearer (length s.now) best c else best) }
{
    if is_zero_cut(least, s, c) {
        return nearer(s.len(), best, c);
    }
    best
}

/// The admissible plane without a tag that is nearest to the middle.
pub fn zero_cut(least: u64, s: &[u64]) -> Option<usize>
    ensures { result ≡ zero_cut least s.now }
{
    let mut best = None;
    for c in 0..s.len() {
        best = nearer_zero(least, s, best, c);
    }
    best
}

/// The second difference.
fn bend(s: &[u64], c: usize) -> i128
    requires low { 0 < c }
    requires high { c + 1 < length s.now }
    ensures { result ≡ bend s.now c }
{
    i128::from(s[c - 1]) + i128::from(s[c + 1]) - 2 * i128::from(s[c])
}

/// Whether two numbers are of strictly opposite sign.
fn opposite(x: i128, y: i128) -> bool
    ensures { result ≡ opposite x y }
{
    x < 0 && 0 < y || 0 < x && y < 0
}

/// Whether the second difference changes its sign at an admissible cut.
pub fn is_turn(least: u64, s: &[u64], c: usize) -> bool
    ensures { result ≡ is_turn least s.now c }
{
    if !admissible(least, s.len(), c) {
        return false;
    }
    if c <= 1 || s.len().saturating_sub(1) <= c {
        return false;
    }
    opposite(bend(s, c - 1), bend(s, c))
}

/// How far the second difference jumps at a cut.
pub fn jump(s: &[u64], c: usize) -> u128
    requires low { 1 < c }
    requires high { c + 1 < length s.now }
    ensures { result ≡ jump s.now c }
{
    bend(s, c).abs_diff(bend(s, c - 1))
}
