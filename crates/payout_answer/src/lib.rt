// The audit of an index text, that can be read, against a series of the library's length: planned by what judging the text said, and where nothing refuses the rows are audited in a pass over the text.
#![tactic(auto)]

ghost use Rattle.std.specs.Prelude.{◌≡◌, Ok};
ghost use Rattle.meaning_text.specs.Read.{read_text};
ghost use Rattle.meaning_text.specs.Texts.{index_form};
ghost use Rattle.meaning_entries.specs.Load.{text_index};
ghost use Rattle.meaning_entries.specs.Audit.{audit_answer};
ghost use Rattle.text_judge.specs.Tally.{scanned};

use entry_audit::{answer, make_plan};
use meaning_entries::{Audited, Refusal};
use meaning_rows::Head;
use payout_walk::walk_rows;
use text_judge::{Rows, judged_rows};

// The audit of the index of a text, whose head and rows came to these, against a series.
pub fn audit_series(index: &[u8], head: Head, c: Rows, series: &[i32]) -> Result<Audited, Refusal>
    requires { Ok (head, c) ≡ scanned (read_text index_form index.now) }
    ensures { result ≡ audit_answer (record { series = series.now; index = text_index index.now }) }
{
    let lacking = make_plan(series, head, judged_rows(head, c))?;
    let wrong = walk_rows(index, series, head);
    Ok(answer(lacking, wrong))
}
