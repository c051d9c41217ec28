// What refuses an extension, by its series, by what judging said of the index and by how many entries the buffers hold.
#![tactic(auto)]

ghost use Rattle.std.specs.Prelude.{◌≡◌};
ghost use Rattle.extend_plan.specs.Plan.{plan_of};

use meaning_entries::{Reason, Refusal};
use meaning_rows::Head;
use refusals::{more, refuse_if, refuse_judged, refuse_room, refuse_series};

// The plan of an extension.
pub fn make_plan(
    series: &[i32],
    head: Head,
    judged: Result<usize, usize>,
    rows: usize,
    runs: usize,
) -> Result<(), Refusal>
    ensures { result ≡ plan_of series.now head judged rows runs }
{
    let n = series.len();
    let w = head.window;
    refuse_series(series)?;
    refuse_judged(judged)?;
    refuse_if(more(head.windows, w, n), Reason::MoreWindows)?;
    refuse_room(rows, runs, w, n)
}
