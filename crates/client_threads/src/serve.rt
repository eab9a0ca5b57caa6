//! All clients, each on a thread of its own where threads can be made.

ghost use Rattle.std.specs.Prelude.{All};
ghost use Rattle.std.specs.List.{AllZip};

use crate::job::Job;
use std::alloc::Global;
use std::sync::Wait;
use std::thread;
use std::thread::Threads;

/// Serves all clients, each once, on a thread of its own where one can be made, and waits for all of them.
///
/// Where no thread can be made they are served one after another. That is no fault.
pub fn serve_all<R: Threads + Wait + Sync, J: Job + Send>(rt: &R, alloc: Global, jobs: &mut [J])
    requires ready { All J.ready jobs.old }
    // Each job is what serving it once left, and stands where it stood.
    ensures serves { AllZip J.serves jobs.old jobs.new }
{
    let count = jobs.len();
    if count > 0 {
        let serve = |_: usize, job: &mut J|
            requires { J.ready job.now }
            ensures serves { J.serves job.entry.now job.exit.now }
        { job.serve(rt, alloc) };
        thread::for_each_mut(rt, jobs, count, &serve);
    }
}
