// Demand 3 of the code (01, Candidates; 02, item 1): two lent indexes, each audited against the part of the series that it covers, and the series searched for one query through both.
#![tactic(auto)]

ghost use Rattle.std.specs.Prelude.{◌≡◌};
ghost use Rattle.meaning_rows.specs.Index.{lent};
ghost use Rattle.meaning_filter.specs.declared.Pick.{Pick};
ghost use Rattle.meaning_entries.specs.Both.{yes, told_second, told_found, told};
ghost use Rattle.meaning_entries.specs.Search.{lent_search, search_buffers, picking};
ghost use Rattle.meaning_entries.specs.Both.{Demand3Kept};

use entry_audit::audit_covered;
use entry_search::{pick_all, search};
use meaning_entries::{Audited, Both, Found, Refusal};
use meaning_filter::Ask;
use meaning_rows::{Head, Row};

// An audit says yes.
#[tactic(auto, unfolding(meaning_entries::specs::Both::yes))]
fn says_yes(audited: Result<Audited, Refusal>) -> bool
    ensures { result ≡ yes audited }
{
    matches!(audited, Ok(Audited::Yes))
}

// What a second search comes to, where the first listed `count` matches.
#[tactic(auto, unfolding(meaning_entries::specs::Both::told_second))]
fn tell_second(count: usize, second: Result<Found, Refusal>) -> Both
    ensures { result ≡ told_second count second }
{
    match second {
        Ok(Found::All { matches, .. }) => Both::Listed {
            first: count,
            second: matches,
        },
        _ => Both::SecondSearch { found: second },
    }
}

// What two searches come to.
#[tactic(auto, unfolding(meaning_entries::specs::Both::told_found))]
fn tell_found(first: Result<Found, Refusal>, second: Result<Found, Refusal>) -> Both
    ensures { result ≡ told_found first second }
{
    match first {
        Ok(Found::All { matches, .. }) => tell_second(matches, second),
        _ => Both::FirstSearch { found: first },
    }
}

// What two audits and two searches come to.
#[tactic(auto, unfolding(meaning_entries::specs::Both::told))]
fn tell(
    one: Result<Audited, Refusal>,
    two: Result<Audited, Refusal>,
    first: Result<Found, Refusal>,
    second: Result<Found, Refusal>,
) -> Both
    ensures { result ≡ told one two first second }
{
    if !says_yes(one) {
        return Both::FirstAudit { audited: one };
    }
    if !says_yes(two) {
        return Both::SecondAudit { audited: two };
    }
    tell_found(first, second)
}

// Both indexes audited, each against its own part, and the series searched through both; both searches give the whole list, whatever `ask` picks.
pub fn demand(
    series: &[i32],
    head1: Head,
    rows1: &[Row],
    left1: &[u32],
    right1: &[u32],
    head2: Head,
    rows2: &[Row],
    left2: &[u32],
    right2: &[u32],
    ask: Ask,
    query: &[i32],
    first1: &mut [u32],
    last1: &mut [u32],
    scratch1: &mut [u16],
    offsets1: &mut [u32],
    distances1: &mut [u64],
    first2: &mut [u32],
    last2: &mut [u32],
    scratch2: &mut [u16],
    offsets2: &mut [u32],
    distances2: &mut [u64],
) -> Both
    ensures { Demand3Kept (lent_search series.now head1 rows1.now left1.now right1.now (picking Pick.All ask) query.now) (lent head2 rows2.now left2.now right2.now) (search_buffers first1.old last1.old scratch1.old offsets1.old distances1.old) (search_buffers first2.old last2.old scratch2.old offsets2.old distances2.old) result (search_buffers first1.new last1.new scratch1.new offsets1.new distances1.new) (search_buffers first2.new last2.new scratch2.new offsets2.new distances2.new) }
{
    let one = audit_covered(series, head1, rows1, left1, right1);
    let two = audit_covered(series, head2, rows2, left2, right2);
    let whole = pick_all(ask);
    let found1 = search(
        series, head1, rows1, left1, right1, whole, query, first1, last1, scratch1, offsets1,
        distances1,
    );
    let found2 = search(
        series, head2, rows2, left2, right2, whole, query, first2, last2, scratch2, offsets2,
        distances2,
    );
    tell(one, two, found1, found2)
}
