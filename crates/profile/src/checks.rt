// The checks of a profile, 11 to 18, in document 01's order.
ghost use Rattle.std.specs.Prelude.{◌≡◌, length, IfOk};
ghost use Rattle.refusals.specs.Refusals.{unless, ◌or◌};
ghost use Rattle.refusals.specs.Refusal.{number_in};
ghost use Rattle.byte_lists.specs.Bytes.{doubles_of};
ghost use Rattle.profile.specs.Profile.{Shaped, lengths_no, profile_no, speed_no};

use list_tests::tests::Finite;
use refusals::most;
use refusals::refusal::Refusal;

// Stations and squared speeds that passed 11 to 15: finite, and as many of each.
#[derive(Clone, Copy)]
pub struct Profile<'a> {
    pub stations: Finite<'a>,
    pub speeds: Finite<'a>,
    pub ghost shaped: { Shaped (length (doubles_of stations.bytes.now)) (length (doubles_of speeds.bytes.now)) },
}

// 11 and 12, of so many stations and speeds: told by the lengths alone, so that no list over its limit is walked.
#[tactic(auto, unfolding(crate::specs::Profile::lengths_no))]
fn check_lengths(stations: usize, speeds: usize) -> Result<(), Refusal>
    ensures { number_in result ≡ lengths_no stations speeds }
{
    Refusal::StationCount.unless(2 <= stations && stations <= most::STATIONS)?;
    Refusal::SpeedCount.unless(speeds == stations)
}

// 11 to 15
#[tactic(auto, using(byte_lists::proofs::Fronts::length_doubles), unfolding(crate::specs::Profile::profile_no, crate::specs::Profile::entries_no))]
pub fn check_topp2_sa<'a>(s: &'a [u8], a: &'a [u8]) -> Result<Profile<'a>, Refusal>
    ensures refused { number_in result ≡ profile_no (doubles_of s.now) (doubles_of a.now) }
    ensures held { IfOk result (λ p. (p.stations.bytes.now ≡ s.now) × (p.speeds.bytes.now ≡ a.now)) }
{
    check_lengths(s.len() / 8, a.len() / 8)?;
    let stations = Finite::of(s).ok_or(Refusal::StationNotFinite)?;
    let speeds = Finite::of(a).ok_or(Refusal::SpeedNotFinite)?;
    Refusal::StationsNotIncreasing.unless(stations.rises())?;
    Ok(Profile { stations, speeds })
}

// 11 to 15, 16 for a start that is not finite, 17 and 18: what is asked of a profile that has times.
#[tactic(auto, unfolding(crate::specs::Profile::speed_no))]
pub fn check_topp2_timed<'a>(s: &'a [u8], a: &'a [u8], start: bool) -> Result<Profile<'a>, Refusal>
    ensures refused { number_in result ≡ profile_no (doubles_of s.now) (doubles_of a.now) or unless start 16 or speed_no (doubles_of a.now) }
    ensures held { IfOk result (λ p. (p.stations.bytes.now ≡ s.now) × (p.speeds.bytes.now ≡ a.now)) }
{
    let p = check_topp2_sa(s, a)?;
    Refusal::StartNotFinite.unless(start)?;
    Refusal::SpeedNegative.unless(p.speeds.none_below_zero())?;
    Refusal::Standstill.unless(p.speeds.never_still())?;
    Ok(p)
}
