// Stations, speeds and times on byte lists. Each returns 0, or the refusal number; a refusal writes nothing.
ghost use Rattle.std.specs.Float.{binary64};
ghost use Rattle.std.specs.Float.Ieee.{of_bits};
ghost use Rattle.sloping.specs.Slopes.{ByteSlopes};
ghost use Rattle.timing.specs.Times.{ByteTimes};
ghost use Rattle.malikoza.specs.Stations.{ListTallied, GridTallied, yes};

use gridding::grid::t_to_s_topp2_grid;
use patterns::pattern::double_of;
use refusals::refusal::number_in;
use replies::samples::tell;
use sampling::list::t_to_s_topp2_list;
use sloping::slopes::a_to_b_topp2;
use timing::times::s_to_t_topp2;

// One entry fewer than stations.
pub fn malikoza_a_to_b(s: &[u8], a: &[u8], out: &mut [u8]) -> u64
    ensures { ByteSlopes s.now a.now out.old result out.new }
{
    number_in(&a_to_b_topp2(s, a, out))
}

// One entry for each station.
pub fn malikoza_s_to_t(s: &[u8], a: &[u8], t0: u64, out: &mut [u8]) -> u64
    ensures { ByteTimes s.now a.now (of_bits binary64 t0) out.old result out.new }
{
    number_in(&s_to_t_topp2(s, a, double_of(t0), out))
}

// One entry for each sample.
pub fn malikoza_t_to_s_list(
    s: &[u8],
    a: &[u8],
    t: &[u8],
    x: &[u8],
    out: &mut [u8],
    before: &mut u64,
    inside: &mut u64,
    past: &mut u64,
    written: &mut u64,
) -> u64
    ensures { ListTallied s.now a.now t.now x.now out.old result
        before.old before.new
        inside.old inside.new
        past.old past.new
        written.old written.new
        out.new }
{
    let found = t_to_s_topp2_list(s, a, t, x, out);
    tell(found, before, inside, past, written)
}

// One entry for each time of the grid, and the last station where it is asked for and due.
pub fn malikoza_t_to_s_grid(
    s: &[u8],
    a: &[u8],
    t: &[u8],
    t0: u64,
    dt: u64,
    with_final: u8,
    out: &mut [u8],
    before: &mut u64,
    inside: &mut u64,
    past: &mut u64,
    written: &mut u64,
) -> u64
    ensures { GridTallied s.now a.now t.now
        (of_bits binary64 t0) (of_bits binary64 dt) (yes with_final) out.old result
        before.old before.new
        inside.old inside.new
        past.old past.new
        written.old written.new
        out.new }
{
    let found = t_to_s_topp2_grid(s, a, t, double_of(t0), double_of(dt), with_final != 0, out);
    tell(found, before, inside, past, written)
}
