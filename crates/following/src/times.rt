// The times of samples, where a pass over them finds them: a list, or an even grid.
ghost use Rattle.std.specs.Prelude.{◌≡◌, ◌/◌, ℕ, Float, length};
ghost use Rattle.loops.specs.Upto.{at};
ghost use Rattle.refusals.specs.Most.{most_samples};
ghost use Rattle.byte_lists.specs.Bytes.{doubles_of};
ghost use Rattle.following.specs.Places.{grid_time};

use byte_lists::doubles::double_at;
use refusals::most;

pub trait Times: Copy {
    ghost time: { Self → ℕ → Float };

    ghost reach: { Self → ℕ };

    // Time j.
    fn time(self, j: usize) -> f64
        ensures { result ≡ time self j };

    // Before this place a time is read without a test of its place.
    fn reach(self) -> usize
        ensures { result ≡ reach self };
}

// The doubles of a list of bytes.
#[derive(Clone, Copy)]
pub struct Listed<'a>(pub &'a [u8]);

impl Times for Listed<'_> {
    ghost time = { λ x j. at (doubles_of x.0.now) j };

    ghost reach = { λ x. length x.0.now / 8 };

    fn time(self, j: usize) -> f64 {
        double_at(self.0, j)
    }

    fn reach(self) -> usize {
        self.0.len() / 8
    }
}

// t0, and every dt after it, in the limit of samples.
#[derive(Clone, Copy)]
pub struct Even {
    pub t0: f64,
    pub dt: f64,
}

// A number of 32 bits is a double at once.
fn grid_time(t0: f64, dt: f64, i: u64) -> f64
    ensures { result ≡ grid_time t0 dt i }
{
    if i < 0x1_0000_0000 {
        let k = i as u32;
        return t0 + k as f64 * dt;
    }
    t0 + std::num::nearest_u64_to_f64(i) * dt
}

impl Times for Even {
    ghost time = { λ g. grid_time g.t0 g.dt };

    ghost reach = { λ _. most_samples };

    fn time(self, j: usize) -> f64 {
        grid_time(self.t0, self.dt, j as u64)
    }

    fn reach(self) -> usize {
        most::SAMPLES
    }
}
