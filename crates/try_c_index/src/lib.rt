// The entries over lent records for C: for the comparison under tests/ and the measurements under bench/, and for nothing else. Each takes what the entry takes, calls it, and tells its answer as a struct of numbers.
#![tactic(auto)]

ghost use Rattle.std.specs.Prelude.{◌≡◌};
ghost use Rattle.meaning_entries.specs.Audit.{lent_audit, audit_answer};
ghost use Rattle.meaning_entries.specs.Build.{lent_build};
ghost use Rattle.meaning_entries.specs.Extend.{lent_extend};
ghost use Rattle.try_c_index.specs.Told.{numbers_of, told_audited, told_built, BuildTold, ExtendTold};

use entry_audit::audit;
use entry_build::build;
use entry_extend::extend;
use meaning_entries::{Audited, Held, Refusal};
use meaning_rows::{Head, Row};

// An answer: its kind, 3 where the call is refused, a head where it has one, and two numbers.
// Numbers and no enum: it is what C takes.
#[repr(C)]
#[derive(Clone, Copy)]
pub struct Answer {
    pub kind: u32,
    pub head: Head,
    pub first: usize,
    pub second: usize,
}

// A kind and two numbers.
pub fn numbers(kind: u32, first: usize, second: usize) -> Answer
    ensures { result ≡ numbers_of kind first second }
{
    let head = Head {
        window: 0,
        width: 0,
        windows: 0,
    };
    Answer {
        kind,
        head,
        first,
        second,
    }
}

// What an audit answers: 0 yes; 1 the row and offset filed wrongly; 2 how many windows stand nowhere; 3 the refusal's number and place.
#[tactic(auto, unfolding(crate::specs::Told::told_audited))]
fn tell_audited(answer: Result<Audited, Refusal>) -> Answer
    ensures { result ≡ told_audited answer }
{
    match answer {
        Ok(Audited::Yes) => numbers(0, 0, 0),
        Ok(Audited::Wrong { row, offset }) => numbers(1, row, offset),
        Ok(Audited::Missing { count }) => numbers(2, count, 0),
        Err(r) => numbers(3, r.number as usize, r.place),
    }
}

// The audit.
pub fn index_audit(series: &[i32], head: Head, rows: &[Row], left: &[u32], right: &[u32]) -> Answer
    ensures { result ≡ told_audited (audit_answer (lent_audit series.now head rows.now left.now right.now)) }
{
    tell_audited(audit(series, head, rows, left, right))
}

// What a build, an extension or a reading answers: 0 the index's head, and how many rows and runs it has; 3 the refusal's number and place.
#[tactic(auto, unfolding(crate::specs::Told::told_built))]
pub fn tell_built(answer: Result<Held, Refusal>) -> Answer
    ensures { result ≡ told_built answer }
{
    match answer {
        Ok(index) => Answer {
            kind: 0,
            head: index.head,
            first: index.rows,
            second: index.runs,
        },
        Err(r) => numbers(3, r.number as usize, r.place),
    }
}

// The build.
pub fn index_build(
    series: &[i32],
    w: u32,
    d: u32,
    g: u32,
    rows: &mut [Row],
    left: &mut [u32],
    right: &mut [u32],
) -> Answer
    ensures { BuildTold (lent_build series.now w d g) (record { rows = rows.old; left = left.old; right = right.old }) result (record { rows = rows.new; left = left.new; right = right.new }) }
{
    tell_built(build(series, w, d, g, rows, left, right))
}

// The extension.
pub fn index_extend(
    series: &[i32],
    head: Head,
    from: &[Row],
    lefts: &[u32],
    rights: &[u32],
    rows: &mut [Row],
    left: &mut [u32],
    right: &mut [u32],
) -> Answer
    ensures { ExtendTold (lent_extend series.now head from.now lefts.now rights.now) (record { rows = rows.old; left = left.old; right = right.old }) result (record { rows = rows.new; left = left.new; right = right.new }) }
{
    tell_built(extend(series, head, from, lefts, rights, rows, left, right))
}
