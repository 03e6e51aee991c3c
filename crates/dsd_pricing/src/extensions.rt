//! What a quantity costs.

ghost use Rattle.std.specs.Prelude.{◌≡◌, ◌≤◌, ◌*◌, ◌+◌, ◌<◌};
ghost use Rattle.dsd_pricing.specs.Pricing.{extended};

use dsd_values::{Cost, Quantity};

/// The cost of a quantity in whole cents. Half a cent goes up.
pub fn extension(quantity: Quantity, cost: Cost) -> u64
    ensures value { result ≡ extended quantity cost }
    // The whole cents are the nearest to the hundredths of a cent, and the greater of two nearest.
    ensures nearest { (100 * result ≤ quantity * cost + 50) × (quantity * cost + 50 < 100 * result + 100) }
    ensures within { result ≤ 999_989_999_000 }
{
    (u64::from(quantity.get()) * cost.get() + 50) / 100
}
