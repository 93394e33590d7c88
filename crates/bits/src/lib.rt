// The bits of a float, as a whole number.
#![tactic(auto)]

ghost use Rattle.std.specs.Prelude.{◌≡◌};
ghost use Rattle.bits.specs.Bits.{bits_of};

// Those of a NaN are left open, and it counts as 0.
pub fn of(v: f64) -> u64
    ensures { result ≡ bits_of v }
{
    if v.is_nan() { 0 } else { v.to_bits() }
}
