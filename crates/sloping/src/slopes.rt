// a to b: half the slope of the squared speed over each pair of stations, straight from the bytes of the lists to those of the output.
ghost use Rattle.std.specs.Prelude.{◌≡◌, ◌+◌, ◌*◌, ◌-◌, ◌/◌, ◌<◌, ◌≤◌, length};
ghost use Rattle.refusals.specs.Refusal.{number_in};
ghost use Rattle.loops.specs.Upto.{filled};
ghost use Rattle.byte_lists.specs.Bytes.{doubles_of, byte_of};
ghost use Rattle.sloping.specs.Slopes.{slope, slopes_no, ByteSlopes};

use byte_lists::doubles;
use profile::checks;
use profile::checks::Profile;
use refusals::refusal::Refusal;

fn slope(p: Profile<'_>, k: usize) -> f64
    requires { k + 1 < length (doubles_of p.stations.bytes.now) }
    ensures { result ≡ slope (doubles_of p.entry.stations.bytes.now) (doubles_of p.entry.speeds.bytes.now) k }
{
    0.5 * (p.speeds.get(k + 1) - p.speeds.get(k)) / (p.stations.get(k + 1) - p.stations.get(k))
}

// Lengths that are told here, beside the loop, are not tested in it.
fn fill(p: Profile<'_>, out: &mut [u8])
    requires { length (doubles_of p.stations.bytes.now) - 1 ≤ length out.old / 8 }
    ensures { out.new ≡ filled (byte_of (slope (doubles_of p.entry.stations.bytes.now) (doubles_of p.entry.speeds.bytes.now)))
        (8 * (length (doubles_of p.entry.stations.bytes.now) - 1)) out.old }
{
    let n = p.stations.len();
    if 0 < n && p.speeds.len() == n && n - 1 <= out.len() / 8 {
        for k in 0..n - 1 {
            doubles::put(out, k, slope(p, k));
        }
    }
}

// b of each pair, one entry fewer than stations: 10 to 15, 29.
#[tactic(auto, unfolding(crate::specs::Slopes::slopes_no))]
pub fn a_to_b_topp2(s: &[u8], a: &[u8], out: &mut [u8]) -> Result<(), Refusal>
    ensures { ByteSlopes s.now a.now out.old (number_in result) out.new }
{
    Refusal::NotEights.unless(doubles::in_eights(s.len(), a.len(), out.len()))?;
    let p = checks::check_topp2_sa(s, a)?;
    Refusal::OutputTooShort.unless(p.stations.len() - 1 <= out.len() / 8)?;
    fill(p, out);
    Ok(())
}
