//! What allowances and charges change of an amount.

ghost use Rattle.std.specs.Prelude.{◌≡◌, ◌≤◌, ◌≤ℤ◌, ◌*◌, ◌+◌, ◌^◌, ℤ, pos, All, IsSome, unwrap_or};
ghost use Rattle.dsd_pricing.specs.Bounds.{IsWithin, most_effect, most_effects};
ghost use Rattle.dsd_pricing.specs.Pricing.{HasSize, HasSizeIn, effect, effect_in, effects, share, size};

use crate::extensions::extension;
use dsd_values::{Allowance, Extra, Method, Percent, Quantity};

/// What an allowance changes of a basis in cents. The quantity counts where a rate does and the allowance has none itself.
pub fn effect_of(allowance: &Allowance, basis: u64, quantity: Option<Quantity>) -> i128
    requires { HasSize allowance.now quantity }
    ensures value { result ≡ effect allowance.now basis quantity }
    ensures within { IsWithin (most_effect basis) result }
{
    match Method::named(allowance.method.as_slice()) {
        Method::Lowers => -size_of(allowance, basis, quantity),
        Method::Raises => size_of(allowance, basis, quantity),
        Method::Other => 0,
    }
}

/// What all of these extras change of a basis in cents. A note changes nothing.
pub fn effects_of(extras: &[Extra], basis: u64, quantity: Option<Quantity>) -> i128
    requires sizes { All (HasSizeIn quantity) extras.now }
    requires small { basis ≤ 10_000_000_000_000_000 }
    ensures value { result ≡ effects extras.now basis quantity }
    ensures within { IsWithin (most_effects basis) result }
{
    let mut sum = 0;
    for extra in extras {
        sum += extra_effect(extra, basis, &quantity);
    }
    sum
}

fn extra_effect(extra: &Extra, basis: u64, quantity: &Option<Quantity>) -> i128
    requires { HasSizeIn quantity.now extra.now }
    ensures value { result ≡ effect_in basis quantity.now extra.now }
    ensures within { IsWithin (most_effect basis) result }
{
    match extra {
        Extra::Allow(allowance) => effect_of(allowance.get(), basis, *quantity),
        Extra::Note(_) => 0,
    }
}

fn size_of(allowance: &Allowance, basis: u64, quantity: Option<Quantity>) -> i128
    requires { IsSome (size allowance.now basis quantity) }
    ensures value { result ≡ pos (unwrap_or (size allowance.now basis quantity) 0) }
    ensures within { result ≤ℤ pos (most_effect basis) }
{
    if let Some(total) = allowance.total {
        i128::from(total.get())
    } else if let Some(rate) = allowance.rate {
        i128::from(extension(allowance.quantity.or(quantity).unwrap(), rate))
    } else {
        share_of(basis, allowance.percent.unwrap())
    }
}

/// A percent of a basis, to the nearest cent. Half a cent goes up.
fn share_of(basis: u64, percent: Percent) -> i128
    ensures value { result ≡ pos (share basis percent) }
    ensures within { result ≤ℤ pos (10 * basis) }
{
    // The whole ten-thousands need no rounding, so that no division is wider than a word.
    let percent = u64::from(percent.get());
    let whole = u128::from(basis / 10_000) * u128::from(percent);
    (whole + u128::from((basis % 10_000 * percent + 5_000) / 10_000)) as i128
}
