// IEEE 754's total order on f64 values that are no NaN.
ghost use Rattle.std.specs.Prelude.{◌≡◌};
ghost use Rattle.numeric.specs.TotalOrder.{total_order};

// Whether a stands at or before b: -0.0 before +0.0. A NaN stands nowhere; the library's `total_cmp` asks that there is
// none.
#[tactic(auto, unfolding(crate::specs::TotalOrder::total_order))]
pub fn total_order(a: f64, b: f64) -> bool
    ensures { result ≡ total_order a b }
{
    if a == b {
        return a.is_sign_negative() | b.is_sign_positive();
    }
    a < b
}
