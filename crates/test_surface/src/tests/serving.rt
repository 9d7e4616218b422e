// `world_server`
use client_service::{Admission, Door};
use disk_model::{Disk, FourFiles};
use shared_capture::Method;
use std::alloc::Global;
use std::sync::Wait;
use std::thread::Threads;
use std::time::Clock;
use worker_threads::Watch;
use world_folder::Checks;
use world_server::{Every, Frontend, Served, WorldFailure, serve_tcp};

// Serves the world of four files to the clients of a front.
fn serve<
    R: Threads + Wait + Clock + Copy + Send + 'static,
    M: Method + Send + 'static,
    D: Disk + Drop + Send + 'static,
    W: Watch<D> + Door + Clone + Drop + Send + 'static,
    F: Frontend<M, D, W>,
>(
    rt: &R,
    alloc: Global,
    front: &mut F,
    files: FourFiles<D>,
    every: Every,
    admission: Admission,
    checks: Checks,
) -> Result<Served<M, D>, WorldFailure<D>> {
    serve_tcp(rt, alloc, front, files, every, admission, checks)
}
