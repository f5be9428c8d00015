// `recover_forward_intersection`: the refusals in 01's order, then the cap and the search.
ghost use Rattle.std.specs.Prelude.{◌≡◌};
ghost use Rattle.refusals.specs.Refusal.{numbered};
ghost use Rattle.byte_lists.specs.Bytes.{doubles_of};
ghost use Rattle.topp2_ra.specs.Recovery.{recovered};

use crate::inputs;
use limits::request::Request;
use refusals::refusal::Refusal;
use search::answer::Certified;
use search::recovery;

pub fn recover_forward_intersection(q: Request, rows: &[u8]) -> Result<Certified, Refusal>
    ensures { numbered result ≡ recovered q (doubles_of rows.now) }
{
    inputs::refusal(q, rows)?;
    recovery::recover(q, rows)
}
