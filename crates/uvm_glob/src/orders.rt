//! The two orders of paths, computed from the texts of the paths. The first place where two texts differ decides their order.

ghost use Rattle.std.specs.Prelude.{◌≡◌};
ghost use Rattle.uvm_glob.specs.Differences.{first_difference, rank};
ghost use Rattle.uvm_glob.specs.Orders.{down_cmp, up_cmp};
ghost use Rattle.uvm_glob.specs.Paths.{names_of};

use std::cmp::Ordering;

/// The direction in which a tree of paths is traversed, and so an order of paths. Both orders compare paths name by name, and
/// names byte by byte.
#[derive(Clone, Copy, PartialEq, Eq)]
pub enum Direction {
    /// Parents before their children, and so the top first: the order of a top-down phase (IEEE 1800.2-2020, Clause 9), and of
    /// `Ord`.
    Down,
    /// Children before their parents, and so the top last: the order of a bottom-up phase.
    Up,
}

// Compares the paths with these texts in the order `Down`.
#[tactic(auto, using(crate::proofs::TextOrders::orders))]
pub(crate) fn down_cmp(mine: &[u8], other: &[u8]) -> Ordering
    ensures { result ≡ down_cmp (names_of mine.now) (names_of other.now) }
{
    let (mine, other) = first_difference(mine, other);
    down_rank(mine).cmp(&down_rank(other))
}

// Compares the paths with these texts in the order `Up`.
#[tactic(auto, using(crate::proofs::TextOrders::orders))]
pub(crate) fn up_cmp(mine: &[u8], other: &[u8]) -> Ordering
    ensures { result ≡ up_cmp (names_of mine.now) (names_of other.now) }
{
    if mine.is_empty() || other.is_empty() {
        // The top is last.
        return mine.is_empty().cmp(&other.is_empty());
    }
    let (mine, other) = first_difference(mine, other);
    up_rank(mine).cmp(&up_rank(other))
}

// Returns what each text has at the first place where they differ: a byte, or `None` at its end.
fn first_difference(mut mine: &[u8], mut other: &[u8]) -> (Option<u8>, Option<u8>)
    ensures { result ≡ first_difference mine.now other.now }
{
    while let ([x, xs @ ..], [y, ys @ ..]) = (mine, other) {
        if x != y {
            return (Some(*x), Some(*y));
        }
        mine = xs;
        other = ys;
    }
    (mine.first().copied(), other.first().copied())
}

// Returns the rank in `Down` of what a text has at the first difference. The end of a text precedes a dot, and so a path precedes
// its descendants.
fn down_rank(byte: Option<u8>) -> u16
    ensures { result ≡ rank 0 1 byte }
{
    match byte {
        None => 0,
        Some(b'.') => 1,
        Some(byte) => u16::from(byte) + 2,
    }
}

// Returns the rank in `Up` of what a text has at the first difference. The end of a text follows a dot, and so a path follows its
// descendants.
fn up_rank(byte: Option<u8>) -> u16
    ensures { result ≡ rank 1 0 byte }
{
    match byte {
        Some(b'.') => 0,
        None => 1,
        Some(byte) => u16::from(byte) + 2,
    }
}
