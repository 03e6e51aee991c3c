//! The words of `load`.

ghost use Rattle.std.specs.Prelude.{◌≡◌, ◌≢◌, ℕ, IfSome, IsNone, Ok, map, string_bytes};
ghost use Rattle.dsd_values.specs.Reading.{number_of};
ghost use Rattle.load_route.specs.declared.deliveries.TheConstants.{MOST_DELIVERIES as MOST};
ghost use Rattle.dex_cli.specs.Words.{SpellsLoad};

use dsd_values::read_number;
use load_route::MOST_DELIVERIES;

/// The number of deliveries that the words of a `load` ask for.
pub fn read_load(words: &[String]) -> Option<u32>
    ensures found { IfSome result (λ count. SpellsLoad count (map string_bytes words.now)) }
    ensures none { IsNone result → (count : ℕ) → SpellsLoad count (map string_bytes words.now) → ⊥ }
{
    match words {
        [job, count] if job.as_str() == "load" => read_count(count.as_str()),
        _ => None,
    }
}

/// A number from 1 to the most deliveries of a route.
fn read_count(word: &str) -> Option<u32>
    ensures found { IfSome result (λ count. number_of 1 MOST word.now ≡ Ok count) }
    ensures none { IsNone result → (count : ℕ) → number_of 1 MOST word.now ≢ Ok count }
{
    match read_number(word.as_bytes()) {
        Ok(count) if count >= 1 && count <= u64::from(MOST_DELIVERIES) => Some(count as u32),
        _ => None,
    }
}
