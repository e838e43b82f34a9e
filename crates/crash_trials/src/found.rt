//! What lives came to.
ghost use Rattle.std.specs.Prelude.{◌≡◌, ◌≤◌, IfSome};
ghost use Rattle.std.specs.List.{list_all};
ghost use Rattle.event_model.specs.Answers.{number_of};
ghost use Rattle.crash_trials.specs.Kinds.{AreKept, IsKindOf, accepted_by, is_all_served, is_served, is_whole};

use crate::kinds::Kind;
use event_model::Reply;
use group_commit::DeskRefused;
use life_chain::{LifeReport, LivesReport};

/// What the last two of these lives came to; `None` where there are no two, or where not all of them went on whole.
pub(crate) fn kind_of(report: &LivesReport) -> Option<Kind>
    requires { AreKept report.now.lives.items }
    ensures { IfSome result (λ kind. IsKindOf report.now kind) }
{
    if !is_whole(report) {
        return None;
    }
    let Some((last, others)) = report.lives.split_last() else {
        return None;
    };
    let Some((stopped, _before)) = others.split_last() else {
        return None;
    };
    Some(Kind {
        found: stopped.count,
        acknowledged: accepted_in(&stopped.replies, last.count),
        opened: last.count,
    })
}

/// Whether all lives opened, and memory ran out for none of their replies.
pub(crate) fn is_whole(report: &LivesReport) -> bool
    ensures { result ≡ is_whole report.now }
{
    report.refused.is_none() && are_all_served(&report.lives)
}

fn are_all_served(lives: &[LifeReport]) -> bool
    ensures { result ≡ list_all is_all_served lives.now }
{
    lives.iter().all(|life| is_all_served(life))
}

fn is_all_served(report: &LifeReport) -> bool
    ensures { result ≡ is_all_served report.now }
{
    is_served(report.rebuilt) && are_served(&report.replies)
}

// Whether memory ran out for none of these replies.
fn are_served(replies: &[Reply]) -> bool
    ensures { result ≡ list_all is_served replies.now }
{
    replies.iter().all(|reply| is_served(*reply))
}

fn is_served(reply: Reply) -> bool
    ensures { result ≡ is_served reply }
{
    match reply {
        Reply::Memory | Reply::NotCommitted(DeskRefused::Memory) => false,
        _ => true,
    }
}

// How many changes the commits with these replies accepted; they are at most so many.
fn accepted_in(replies: &[Reply], most: u64) -> u64
    requires { accepted_by replies.now ≤ most }
    ensures { result ≡ accepted_by replies.now }
{
    replies.iter().map(|reply| accepted_of(*reply)).sum()
}

fn accepted_of(reply: Reply) -> u64
    ensures { result ≡ number_of reply }
{
    match reply {
        Reply::Committed { accepted } => accepted as u64,
        _ => 0,
    }
}
