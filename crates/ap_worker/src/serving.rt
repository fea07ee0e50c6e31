//! Workers that serve the one that leads.

ghost use Rattle.std.specs.Prelude.{All};
ghost use Rattle.ap_worker.specs.Workers.{IsIdle, IsStaffed};

use crate::patience::Patience;
use crate::worker::Worker;
use ap_outside::Gate;
use std::alloc::Global;
use std::sync::Wait;
use std::thread;
use std::thread::Threads;

/// Sleeps until there is news, unless there is something to do, or the query's search has ended.
fn sleep<R: Wait, G: Gate>(rt: &R, alloc: Global, gate: &G, worker: &mut Worker<'_, '_>)
    requires { IsStaffed worker.old }
    ensures { IsStaffed worker.new }
{
    let key = worker.common().prepare_wait();
    if worker.is_done() || worker.serve_once(alloc, gate) {
        drop(key);
        return;
    }
    key.wait(rt);
}

/// Runs goals of others until the query's search has ended.
fn serve<R: Wait, G: Gate>(rt: &R, alloc: Global, gate: &G, worker: &mut Worker<'_, '_>)
    requires { IsIdle worker.old }
{
    let mut patience = Patience::new();
    for _ in rt.forever() {
        if worker.is_done() {
            break;
        }
        if worker.serve_once(alloc, gate) {
            patience.renew();
        } else if patience.is_over() {
            sleep(rt, alloc, gate, worker);
            patience.renew();
        } else {
            patience.wait();
        }
    }
}

/// Runs all these workers, each in a thread of its own where threads can be made.
pub(crate) fn serve_all<R: Threads + Wait + Sync, G: Gate>(
    rt: &R,
    alloc: Global,
    gate: &G,
    workers: &mut Vec<Worker<'_, '_>>,
)
    requires { All IsIdle workers.old.items }
{
    let count = workers.len();
    if count == 0 {
        return;
    }
    thread::for_each_mut(
        rt,
        workers,
        count,
        &|_, worker|
            requires { IsIdle worker.old }
        { serve(rt, alloc, gate, worker) },
    );
}
