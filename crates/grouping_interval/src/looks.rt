// Whether a grouping looks at neighbours of a class: the pass of marks.rt once more, of which only the tests are kept.
ghost use Rattle.std.specs.Prelude.{◌≡◌, ℕ, ◌+◌, ◌<◌, length, get_or};
ghost use Rattle.grouping_interval.specs.LookedAt.{looked_at, among};

use crate::NEAR;
use crate::marks::opens_next;

// Whether the grouping looks at neighbours of a class.
pub fn looks_at<T: Copy, F: Fn(T, T) -> u8>(values: &[T], wanted: u8, class: F) -> bool
    requires callable { (z : T) (i : ℕ) → i + 1 < length values.now
        → F.pre class (get_or values.now i z) (get_or values.now (i + 1) z) }
    ensures { (c : T → T → ℕ)
        → ((z : T) (i given : ℕ) → i + 1 < length values.now
        → F.post class (get_or values.now i z) (get_or values.now (i + 1) z) given
        → given ≡ c (get_or values.now i z) (get_or values.now (i + 1) z))
        → result ≡ among wanted (looked_at c values.now) }
{
    let n = values.len();
    // Of two values none is asked, as the last would be of more.
    if n <= 2 {
        return false;
    }
    let mut opens = true;
    let mut before = NEAR;
    let mut found = false;
    for i in 0..n - 1 {
        before = class(values[i], values[i + 1]);
        found = found | (!opens & (before == wanted));
        opens = opens_next(opens, before);
    }
    found | (!opens & (before == wanted))
}
