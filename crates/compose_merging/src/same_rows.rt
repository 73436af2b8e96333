//! Whether two tables have the same rows.
ghost use Rattle.std.specs.Prelude.{◌≡◌, ◌≢◌, IsTrue, false};

use compose_read::Sequences;

/// Whether both have the same sequences with the same texts. O(keysyms and bytes).
pub(crate) fn are_same(rows: &Sequences, others: &Sequences) -> bool
    ensures same { IsTrue result → rows.now ≡ others.now }
    ensures different { result ≡ false → rows.now ≢ others.now }
{
    if rows.len() != others.len() {
        return false;
    }
    for index in 0..rows.len() {
        if rows.sequence(index) != others.sequence(index) {
            return false;
        }
        if rows.text(index) != others.text(index) {
            return false;
        }
    }
    true
}
