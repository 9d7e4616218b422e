// The tick of the newest open image, passed from one thread to another.
ghost use Rattle.std.specs.Prelude.{◌≡◌, []};
ghost use Rattle.shared_capture.specs.SignalWord.{AreStored};

use super::super::same::same;
use shared_capture::{SignalIn, SignalOut, meet_signal, signal_pair};
use std::process::Abort;
use std::thread::{Threads, join, yield_now};

const TICKS: u64 = 1000;

const TRIES: u64 = 1_000_000_000;

// Publishes the first ticks, one after the other.
fn publish_all(mut out: SignalOut) -> SignalOut
    requires { out.numbers ≡ [] }
    ensures { result.pair ≡ out.pair }
{
    for tick in 0..TICKS {
        out.publish(tick + 1);
    }
    out
}

// Loads until the last tick comes. Returns true if no tick was below the one before.
fn load_all(mut from: SignalIn) -> (SignalIn, bool)
    ensures { result.0.pair ≡ from.pair }
{
    let mut last = 0;
    for _ in 0..TRIES {
        let tick = from.latest();
        if tick < last || tick == TICKS {
            return (from, tick == TICKS);
        }
        last = tick;
        yield_now();
    }
    (from, false)
}

// Runs both threads. Each tick that one loaded was stored by the other.
fn run_both<R: Threads + Sync>(
    rt: &R,
    out: SignalOut,
    from: SignalIn,
) -> (SignalOut, SignalIn, bool)
    requires pair { out.pair ≡ from.pair }
    requires fresh { out.numbers ≡ [] }
    ensures { AreStored result.0.numbers result.1.numbers }
{
    let (mut out, loaded) = join(
        rt,
        move || -> SignalOut
            requires { out.numbers ≡ [] }
            ensures { result.pair ≡ out.pair }
        { publish_all(out) },
        move || -> (SignalIn, bool)
            ensures { result.0.pair ≡ from.pair }
        { load_all(from) },
    );
    let (mut from, rises) = loaded;
    meet_signal(&mut out, &mut from);
    (out, from, rises)
}

// Publishes a tick, and looks for it before and after a meeting.
fn check_newest(rt: &impl Abort, out: &mut SignalOut, from: &mut SignalIn)
    requires pair { out.old.pair ≡ from.old.pair }
    requires fresh { out.old.numbers ≡ [] }
{
    same(rt, from.latest(), 0);
    out.publish(3);
    same(rt, from.latest(), 3);
    same(rt, from.latest(), 3);
    meet_signal(out, from);
    same(rt, from.latest(), 3);
}

#[test]
fn the_newest_image_is_reported(rt: HostRuntime) {
    let (mut out, mut from) = signal_pair(rt.alloc()).expect(&rt, "memory");
    check_newest(&rt, &mut out, &mut from);
}

#[test]
fn ticks_rise_between_threads(rt: HostRuntime) {
    let (out, from) = signal_pair(rt.alloc()).expect(&rt, "memory");
    let (_out, mut from, rises) = run_both(&rt, out, from);
    same(&rt, (rises, from.latest()), (true, TICKS));
}
