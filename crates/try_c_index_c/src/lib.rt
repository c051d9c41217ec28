// The functions of try_c_index, by the names that C calls them by.
#![tactic(auto)]

ghost use Rattle.std.specs.Prelude.{◌≡◌};
ghost use Rattle.meaning_entries.specs.Audit.{lent_audit, audit_answer};
ghost use Rattle.meaning_entries.specs.Build.{lent_build};
ghost use Rattle.meaning_entries.specs.Extend.{lent_extend};
ghost use Rattle.try_c_index.specs.Told.{told_audited, BuildTold, ExtendTold};

use meaning_rows::{Head, Row};
use try_c_index::Answer;

// The audit.
#[unsafe(no_mangle)]
pub extern "C" fn index_audit(
    series: &[i32],
    head: Head,
    rows: &[Row],
    left: &[u32],
    right: &[u32],
) -> Answer
    ensures { result ≡ told_audited (audit_answer (lent_audit series.now head rows.now left.now right.now)) }
{
    try_c_index::index_audit(series, head, rows, left, right)
}

// The build.
#[unsafe(no_mangle)]
pub extern "C" fn index_build(
    series: &[i32],
    w: u32,
    d: u32,
    g: u32,
    rows: &mut [Row],
    left: &mut [u32],
    right: &mut [u32],
) -> Answer
    ensures { BuildTold (lent_build series.now w d g) (record { rows = rows.old; left = left.old; right = right.old }) result (record { rows = rows.new; left = left.new; right = right.new }) }
{
    try_c_index::index_build(series, w, d, g, rows, left, right)
}

// The extension.
#[unsafe(no_mangle)]
pub extern "C" fn index_extend(
    series: &[i32],
    head: Head,
    from: &[Row],
    lefts: &[u32],
    rights: &[u32],
    rows: &mut [Row],
    left: &mut [u32],
    right: &mut [u32],
) -> Answer
    ensures { ExtendTold (lent_extend series.now head from.now lefts.now rights.now) (record { rows = rows.old; left = left.old; right = right.old }) result (record { rows = rows.new; left = left.new; right = right.new }) }
{
    try_c_index::index_extend(series, head, from, lefts, rights, rows, left, right)
}
