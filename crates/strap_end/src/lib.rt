// The end of a strap on an even grid: whether the last station is added. Document 02, request 3, decides.
#![tactic(auto)]

ghost use Rattle.std.specs.Prelude.{◌≡◌};
ghost use Rattle.strap_end.specs.Final.{final_added};

// Of the last time, the last entry and the last station. No comparison with a NaN holds.
pub fn final_added(asked: bool, t0: f64, time: f64, entry: f64, station: f64) -> bool
    ensures { result ≡ final_added asked t0 time entry station }
{
    asked && t0 <= time && !(entry >= station)
}
