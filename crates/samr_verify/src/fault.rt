//! A fault of a report, and which of two comes first.

ghost use Rattle.std.specs.Prelude.{◌≡◌};
ghost use Rattle.samr_verify.specs.Deciding.{stands_before};
ghost use Rattle.samr_verify.specs.Faults.{comes_first, or_earlier, unless};

/// A fault of a report: its kind and the number of its line.
///
/// Kind 3 is that of a box, 4 of the numbers on a `level` line, 5 of a level that does not nest in the one below
/// it, 6 of an edge that is missing, wrong or too many.
#[derive(Clone, Copy, Drop)]
pub struct Fault {
    pub kind: u8,
    pub line: u64,
}

/// Whether a fault is answered before another: by its line, then by its kind.
fn comes_first(a: Fault, b: Fault) -> bool
    ensures { result ≡ comes_first a b }
{
    if a.line < b.line {
        return true;
    }
    if b.line < a.line {
        return false;
    }
    a.kind <= b.kind
}

/// The earlier of two faults, if there is one.
pub(crate) fn or_earlier(a: Option<Fault>, b: Option<Fault>) -> Option<Fault>
    ensures { result ≡ or_earlier a b }
{
    match (a, b) {
        (None, other) => other,
        (Some(f), None) => Some(f),
        (Some(f), Some(g)) => { if comes_first(f, g) { Some(f) } else { Some(g) } }
    }
}

/// A fault of a kind at a line, unless a test holds.
pub(crate) fn unless(test: bool, kind: u8, line: u64) -> Option<Fault>
    ensures { result ≡ unless test kind line }
{
    if test {
        return None;
    }
    Some(Fault { kind, line })
}

/// Whether a fault, if there is one, stands before a line.
pub(crate) fn stands_before(first: Option<Fault>, line: u64) -> bool
    ensures { result ≡ stands_before first line }
{
    match first {
        Some(f) => f.line < line,
        None => false,
    }
}
