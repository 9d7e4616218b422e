//! A worker in its own thread.
ghost use Rattle.std.specs.Prelude.{◌≡◌, IfSome};

use std::sync::Wait;
use std::thread::{self, Promise, PromisedHandle, Threads};

/// The work of a worker in its thread, from its start to its end. `X` is what the
/// worker gets there.
pub(crate) trait Work<X> {
    /// The condition for its start.
    ghost ready: { Self → Type 0 };

    /// The facts that hold at its end.
    ghost ended: { Self → Self → Type 0 };

    fn work<R: Wait>(self, rt: &R, with: X) -> Self
        requires { ready self }
        ensures { ended self result };
}

/// Gives a worker a thread, if the system has one.
pub(crate) fn spawn<
    R: Threads + Wait + Copy + Send + 'static,
    X: Send + Drop + 'static,
    T: Work<X> + Send + Drop + 'static,
    P: Promise<T> + Drop,
>(rt: &R, promise: P, with: X, worker: T) -> Option<PromisedHandle<T, P>>
    requires ready { T.ready worker }
    requires keeps { (end : T) → T.ended worker end → P.kept_by promise end }
    ensures { IfSome result (λ handle. handle.promise ≡ promise) }
{
    let here = *rt;
    let run = move || -> T
        requires { T.ready worker }
        ensures { T.ended worker result }
    { worker.work(&here, with) };
    match thread::spawn_with(rt, promise, run) {
        Ok(handle) => Some(handle),
        Err(_) => None,
    }
}
