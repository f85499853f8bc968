ghost use Rattle.std.specs.Prelude.{◌≡◌, false, IfSome, IfNone};
ghost use Rattle.serde_json.specs.View.{number_view};
ghost use Rattle.rip_base.specs.Whole.{IsWhole};
ghost use Rattle.rip_data.specs.Datum.{number_of_whole};
ghost use Rattle.rip_data.specs.Reading.{is_whole};

use rip_base::Whole;
use serde_json::Number;

// The whole number that was spelled, if it was one in range.
pub(crate) fn whole_of(number: &Number) -> Option<Whole>
    ensures spelled { IfSome result (λ w. number_of_whole w ≡ number_view number.now) }
    ensures whole { IfSome result (λ w. IsWhole w) }
    ensures none { IfNone result (is_whole (number_view number.now) ≡ false) }
{
    match number.as_i64() {
        Some(n) => Whole::new(n),
        None => None,
    }
}
