//! The deliveries of a route.

ghost use Rattle.std.specs.Prelude.{◌≡◌, ◌≤◌};
ghost use Rattle.load_route.specs.Deliveries.{cost_at, counted_at, lines_of, quantity_at};
ghost use Rattle.load_route.specs.declared.deliveries.TheConstants.{MOST_DELIVERIES as MOST, MOST_LINES};

use dsd_values::Cost;

/// The most deliveries of a route.
pub const MOST_DELIVERIES: u32 = 200;

/// The most lines of one of them.
pub(crate) const MOST_LINES: u64 = 5;

/// How many lines a delivery has.
pub(crate) fn line_count(delivery: u64) -> u64
    ensures value { result ≡ lines_of delivery }
    ensures few { result ≤ MOST_LINES }
{
    1 + delivery % 5
}

/// The quantity of a line.
pub(crate) fn quantity(delivery: u64, number: u64) -> u64
    requires few { delivery ≤ MOST }
    requires inside { number ≤ MOST_LINES }
    ensures value { result ≡ quantity_at delivery number }
    ensures some { 1 ≤ result }
{
    1 + (7 * delivery + 3 * number) % 24
}

/// The quantity that is counted of a line: of line 1 of each fourth delivery one less.
pub(crate) fn counted(delivery: u64, number: u64) -> u64
    requires few { delivery ≤ MOST }
    requires inside { number ≤ MOST_LINES }
    ensures { result ≡ counted_at delivery number }
{
    if number == 1 && delivery % 4 == 0 {
        quantity(delivery, number) - 1
    } else {
        quantity(delivery, number)
    }
}

/// The cost of a line.
pub(crate) fn cost(delivery: u64, number: u64) -> Cost
    requires few { delivery ≤ MOST }
    requires inside { number ≤ MOST_LINES }
    ensures { result ≡ cost_at delivery number }
{
    Cost::new(100 * (1 + (13 * delivery + 17 * number) % 900))
}
