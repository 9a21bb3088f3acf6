// Calls that run side by side, each in a thread of its own, which the caller's thread starts one after another. The kit's own
// `for_each_mut` halves the list, so that a thread that was just made starts another: a system may keep both on one processor.

ghost use Rattle.std.specs.Prelude.{◌≡◌, ℕ, ◌+◌, ◌<◌, length};
ghost use denote.Param.Send.{IsSync, IsSend};
ghost use Rattle.std.specs.Fork.{AcceptsAt, ChangesAt, AcceptsEach, ChangesEach};
ghost use Rattle.fv_steal.specs.inner.Places.{AreReady, HaveChanged};

use std::marker::{Send, Sync};
use std::thread::{Threads, join_mut};

/// Calls f(i, &mut s[i]) at each place, each in a thread of its own where one can be made, and the last in the caller's.
pub(crate) fn for_each_mut<R: Threads + Sync, T: Send, F: Fn(usize, &mut T) + Sync>(
    rt: &R,
    s: &mut [T],
    f: &F,
)
    requires { AcceptsEach F.Fn f.now s.old }
    ensures { ChangesEach F.Fn f.now s.old s.new }
{
    if !s.is_empty() {
        each_from(rt, f, 0, s);
    }
}

/// Makes the calls at the places of `s`, which begins at place `from` of the whole.
#[cycle(places)]
fn each_from<R: Threads + Sync, T: Send, F: Fn(usize, &mut T) + Sync>(
    rt: &R,
    f: &F,
    from: usize,
    s: &mut [T],
)
    requires some { 0 < length s.old }
    requires ready { AreReady (AcceptsAt F.Fn f.now) from s.old }
    ensures { HaveChanged (ChangesAt F.Fn f.now) from s.old s.new }
{
    if s.len() == 1 {
        at_one(f, from, &mut s[0]);
        return;
    }
    let (one, others) = s.split_at_mut(1);
    both(rt, f, from, one, from + 1, others);
}

/// Makes the call at one place in a thread of its own, and those at the others, which the caller's thread starts.
#[cycle(places)]
fn both<R: Threads + Sync, T: Send, F: Fn(usize, &mut T) + Sync>(
    rt: &R,
    f: &F,
    from: usize,
    one: &mut [T],
    next: usize,
    others: &mut [T],
)
    requires one { length one.old ≡ 1 }
    requires some { 0 < length others.old }
    requires ready { AreReady (AcceptsAt F.Fn f.now) from one.old × AreReady (AcceptsAt F.Fn f.now) next others.old }
    ensures one { HaveChanged (ChangesAt F.Fn f.now) from one.old one.new }
    ensures others { HaveChanged (ChangesAt F.Fn f.now) next others.old others.new }
{
    let mut theirs = ||
        requires { IsSync R.row × IsSync F.row × IsSend T.row × (length one.now ≡ 1) × AreReady (AcceptsAt F.Fn f.now) from one.now }
        ensures { HaveChanged (ChangesAt F.Fn f.entry.now) from one.entry.now one.exit.now }
    { each_from(rt, f, from, one) };
    let mut ours = ||
        requires { IsSync R.row × IsSync F.row × IsSend T.row × (0 < length others.now) × AreReady (AcceptsAt F.Fn f.now) next others.now }
        ensures { HaveChanged (ChangesAt F.Fn f.entry.now) next others.entry.now others.exit.now }
    { each_from(rt, f, next, others) };
    join_mut(rt, &mut theirs, &mut ours);
}

/// Makes the call at one place.
fn at_one<T, F: Fn(usize, &mut T)>(f: &F, i: usize, it: &mut T)
    requires { AcceptsAt F.Fn f.now i it.old }
    ensures { ChangesAt F.Fn f.now i it.old it.new }
{
    f(i, it);
}
