//! The totals of a record against its rows.

ghost use Rattle.std.specs.Prelude.{◌≡◌, ◌≤◌, length, All, Err, false};
ghost use Rattle.dsd_values.specs.declared.limits.TheConstants.{MOST_LINES};
ghost use Rattle.transaction_set.specs.Extras.{AreExtras, HasExtras};
ghost use Rattle.transaction_set.specs.Reasons.{Says};
ghost use Rattle.base_record_894.specs.Said.{rows_reason};

use dsd_pricing::{quantities, sum_of};
use dsd_values::{Extra, Line};
use segments::Segment;
use transaction_set::{SetFault, SetReason, StatedTotals, refuse};

/// Refuses stated totals that are not those of these rows.
pub fn compare_totals(
    segment: &Segment<'_>,
    said: StatedTotals,
    lines: &[Line],
    extras: &[Extra],
) -> Result<(), SetFault>
    requires few { length lines.now ≤ MOST_LINES }
    requires behind { All HasExtras lines.now }
    requires beside { AreExtras false extras.now }
    ensures { Says result segment.now.start (rows_reason said lines.now extras.now) (λ _. Unit {0}) }
{
    let quantity = quantities(lines);
    if said.quantity != quantity {
        return refuse_totals(segment, u64::from(said.quantity), i128::from(quantity));
    }
    let sum = sum_of(lines, extras);
    if i128::from(said.amount.get()) != sum {
        return refuse_totals(segment, said.amount.get(), sum);
    }
    Ok(())
}

fn refuse_totals(segment: &Segment<'_>, said: u64, computed: i128) -> Result<(), SetFault>
    ensures { result ≡ Err (SetFault.Refused segment.now.start (SetReason.Totals said computed)) }
{
    refuse(segment, SetReason::Totals { said, computed })
}
