//! Waits for the threads of a run, and joins their results.
ghost use Rattle.std.specs.Prelude.{◌≡◌, ℕ, ◌+◌, ◌<◌, IfOk, IfSome, slice_index_or, vec_len};
ghost use Rattle.imposer.specs.Growth.{GathersAllJoined};
ghost use Rattle.imposer.specs.HandlePromises.{IsPreparer};

use crate::start::{Imposer, Preparer};
use crate::thread_work::Work;
use std::alloc::AllocError;
use std::thread::Threads;

/// Waits for all preparers, and joins their results to `held`, which is the caller's. None if a preparer was refused memory.
pub(crate) fn join_preparers<'s, R: Threads, H: Drop, W: Work<H>>(
    rt: &R,
    shared: &'s W,
    held: H,
    count: u32,
    handles: Vec<Preparer<'s, H, W>>,
) -> Option<H>
    requires held { W.is_held shared.now held }
    requires len { vec_len handles ≡ count }
    requires each { (k : ℕ) (d : _) → k < vec_len handles
        → IsPreparer shared.now count k (slice_index_or handles.items k d).promise }
    ensures held { IfSome result (W.is_held shared.now) }
    ensures share { IfSome result (λ h. W.share shared.now h ≡ W.share shared.now held + count) }
    ensures gathered { GathersAllJoined (W.has_gathered shared.now) count held result }
{
    let mut all = Some(held);
    for handle in handles {
        let theirs = handle.join(rt);
        all = merge(shared, all, theirs);
    }
    all
}

/// Waits for all imposers, and joins their results to the results of the preparers. None if a preparer or an imposer was refused memory.
pub(crate) fn join_imposers<'s, R: Threads, H: Drop, W: Work<H>>(
    rt: &R,
    shared: &'s W,
    prepared: Option<H>,
    count: u32,
    handles: Vec<Imposer<'s, H, W>>,
) -> Option<H>
    requires held { IfSome prepared (W.is_held shared.now) }
    requires len { vec_len handles ≡ count }
    requires each { (k : ℕ) (d : _) → k < vec_len handles
        → (slice_index_or handles.items k d).promise.shared.now ≡ shared.now }
    ensures held { IfSome result (W.is_held shared.now) }
    ensures share { (n : ℕ) → IfSome prepared (λ a. W.share shared.now a ≡ n)
        → IfSome result (λ h. W.share shared.now h ≡ n + count) }
    ensures gathered { (first : H) (n k : ℕ) → IfSome prepared (W.has_gathered shared.now first n k)
        → IfSome result (W.has_gathered shared.now first n k) }
{
    let mut all = prepared;
    for handle in handles {
        let theirs = handle.join(rt);
        all = merge(shared, all, theirs);
    }
    all
}

/// Joins the result of one worker to the results joined before. None if either of the two is missing.
fn merge<H: Drop, W: Work<H>>(
    shared: &W,
    all: Option<H>,
    theirs: Result<H, AllocError>,
) -> Option<H>
    requires all { IfSome all (W.is_held shared.now) }
    requires theirs { IfOk theirs (W.is_back shared.now) }
    ensures held { IfSome result (W.is_held shared.now) }
    ensures share { (n : ℕ) → IfSome all (λ a. W.share shared.now a ≡ n)
        → IfSome result (λ h. W.share shared.now h ≡ n + 1) }
    ensures prepared { (first : H) (count k : ℕ) → IfSome all (W.has_gathered shared.now first count k)
        → IfOk theirs (W.has_prepared shared.now count k)
        → IfSome result (W.has_gathered shared.now first count (k + 1)) }
    ensures imposed { (first : H) (count k : ℕ) → IfSome all (W.has_gathered shared.now first count k)
        → IfOk theirs (W.has_imposed shared.now)
        → IfSome result (W.has_gathered shared.now first count k) }
{
    let Some(all) = all else {
        return None;
    };
    let Ok(theirs) = theirs else {
        return None;
    };
    Some(shared.join(all, theirs))
}
