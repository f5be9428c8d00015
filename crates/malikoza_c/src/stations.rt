// Stations, speeds and times on byte lists. Each returns 0, or the refusal number; a refusal writes nothing.
ghost use Rattle.std.specs.Float.{binary64};
ghost use Rattle.std.specs.Float.Ieee.{of_bits};
ghost use Rattle.sloping.specs.Slopes.{ByteSlopes};
ghost use Rattle.timing.specs.Times.{ByteTimes};
ghost use Rattle.malikoza.specs.Stations.{ListTallied, GridTallied, yes};

use malikoza::stations;

// One entry fewer than stations.
#[unsafe(no_mangle)]
pub extern "C" fn malikoza_a_to_b(s: &[u8], a: &[u8], out: &mut [u8]) -> u64
    ensures { ByteSlopes s.now a.now out.old result out.new }
{
    stations::malikoza_a_to_b(s, a, out)
}

// One entry for each station.
#[unsafe(no_mangle)]
pub extern "C" fn malikoza_s_to_t(s: &[u8], a: &[u8], t0: u64, out: &mut [u8]) -> u64
    ensures { ByteTimes s.now a.now (of_bits binary64 t0) out.old result out.new }
{
    stations::malikoza_s_to_t(s, a, t0, out)
}

// One entry for each sample.
#[unsafe(no_mangle)]
pub extern "C" fn malikoza_t_to_s_list(
    s: &[u8],
    a: &[u8],
    t: &[u8],
    x: &[u8],
    out: &mut [u8],
    before: &mut u64,
    inside: &mut u64,
    past: &mut u64,
    written: &mut u64,
) -> u64
    ensures { ListTallied s.now a.now t.now x.now out.old result
        before.old before.new
        inside.old inside.new
        past.old past.new
        written.old written.new
        out.new }
{
    stations::malikoza_t_to_s_list(s, a, t, x, out, before, inside, past, written)
}

// One entry for each time of the grid, and the last station where it is asked for and due.
#[unsafe(no_mangle)]
pub extern "C" fn malikoza_t_to_s_grid(
    s: &[u8],
    a: &[u8],
    t: &[u8],
    t0: u64,
    dt: u64,
    with_final: u8,
    out: &mut [u8],
    before: &mut u64,
    inside: &mut u64,
    past: &mut u64,
    written: &mut u64,
) -> u64
    ensures { GridTallied s.now a.now t.now
        (of_bits binary64 t0) (of_bits binary64 dt) (yes with_final) out.old result
        before.old before.new
        inside.old inside.new
        past.old past.new
        written.old written.new
        out.new }
{
    stations::malikoza_t_to_s_grid(
        s, a, t, t0, dt, with_final, out, before, inside, past, written,
    )
}
