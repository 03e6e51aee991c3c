//! What a delivery comes to.

ghost use Rattle.std.specs.Prelude.{◌≡◌, ◌≤◌, ◌*◌, ◌+ℤ◌, ℕ, ℤ, pos, length, All, None, Some};
ghost use Rattle.dsd_pricing.specs.Bounds.{IsWithin, most_lines_effects};
ghost use Rattle.dsd_pricing.specs.Pricing.{ArePriced, HasSizeIn, HaveSizes, effects, extensions, line_effects, priced, quantities, signed_sum_by, totals_from, totals_of};
ghost use Rattle.dsd_pricing.specs.Pricing.{quantities as sum_of_quantities};
ghost use Rattle.dsd_values.specs.declared.limits.TheConstants.{MOST_LINES};

use crate::effects::effects_of;
use crate::extensions::extension;
use crate::fault::PriceFault;
use dsd_values::{Cents, Extra, Line};

/// What a set states of its rows.
#[derive(Clone, Copy, Debug, PartialEq, Eq)]
pub struct Totals {
    /// The sum of the quantities of its lines.
    pub quantity: u32,
    pub amount: Cents,
}

/// The sum over the rows, in cents: the extensions of the lines, what the allowances of each line
/// change of its extension, and what those of the record change of the sum of the extensions.
pub fn sum_of(lines: &[Line], extras: &[Extra]) -> i128
    requires { ArePriced lines.now extras.now }
    ensures { result ≡ priced lines.now extras.now }
{
    sum_with(sums_over(lines), extras)
}

/// The totals of these rows.
pub fn amount_of(lines: &[Line], extras: &[Extra]) -> Result<Totals, PriceFault>
    requires { ArePriced lines.now extras.now }
    ensures { result ≡ totals_of lines.now extras.now }
{
    let sums = sums_over(lines);
    totals_in(sums.quantity, sum_with(sums, extras))
}

/// The sum of the quantities of these lines.
pub fn quantities(lines: &[Line]) -> u32
    requires { length lines.now ≤ MOST_LINES }
    ensures { result ≡ sum_of_quantities lines.now }
{
    let mut sum = 0;
    for line in lines {
        sum += line.quantity.get();
    }
    sum
}

/// The sums over lines: of their quantities, of their extensions, and of what their extras change.
#[derive(Clone, Copy)]
struct Sums {
    quantity: u32,
    extensions: u64,
    effects: i128,
}

fn sums_over(lines: &[Line]) -> Sums
    requires few { length lines.now ≤ MOST_LINES }
    requires sizes { HaveSizes lines.now }
    ensures quantity { result.quantity ≡ quantities lines.now }
    ensures extensions { result.extensions ≡ extensions lines.now }
    ensures small { result.extensions ≤ 10_000_000_000_000_000 }
    ensures effects { result.effects ≡ signed_sum_by line_effects lines.now }
    ensures within { IsWithin most_lines_effects result.effects }
{
    let mut quantity = 0;
    let mut extensions = 0;
    let mut effects = 0;
    for line in lines {
        let cents = extension(line.quantity, line.cost);
        quantity += line.quantity.get();
        extensions += cents;
        effects += effects_of(line.extras.as_slice(), cents, Some(line.quantity));
    }
    Sums {
        quantity,
        extensions,
        effects,
    }
}

fn sum_with(sums: Sums, extras: &[Extra]) -> i128
    requires sizes { All (HasSizeIn None) extras.now }
    requires small { sums.extensions ≤ 10_000_000_000_000_000 }
    requires within { IsWithin most_lines_effects sums.effects }
    ensures { result ≡ pos sums.extensions +ℤ sums.effects +ℤ effects extras.now sums.extensions None }
{
    i128::from(sums.extensions) + sums.effects + effects_of(extras, sums.extensions, None)
}

fn totals_in(quantity: u32, sum: i128) -> Result<Totals, PriceFault>
    ensures { result ≡ totals_from quantity sum }
{
    if sum < 0 {
        Err(PriceFault::Negative(sum))
    } else if sum > i128::from(Cents::MAX) {
        Err(PriceFault::TooLarge(sum))
    } else {
        Ok(Totals {
            quantity,
            amount: Cents::new(sum as u64),
        })
    }
}
