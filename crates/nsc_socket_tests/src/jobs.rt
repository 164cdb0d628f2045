// The test of a job list between one thread and two workers.
use nsc_jobs::JobList;
use std::sync::atomic::AtomicU64;
use std::sync::{Arc, Wait};
use std::thread;
use std::time::Clock;

// Takes jobs until the list is closed, and gives their sum.
fn sum<R: Wait + Clock>(rt: &R, jobs: &JobList<u64>) -> u64 {
    let mut sum: u64 = 0;
    for _ in rt.forever() {
        match jobs.take(rt) {
            Some(job) => sum = sum.wrapping_add(job),
            None => break,
        }
    }
    sum
}

// Puts a thousand jobs, and closes the list.
fn put_all<R: Wait + Clock>(rt: &R, jobs: &JobList<u64>) {
    for job in 1..=1000u64 {
        let _ = jobs.put(rt, job);
    }
    jobs.close(rt);
}

// Two workers take each job of a third thread once.
#[test]
fn jobs_of_many_threads(rt: HostRuntime) {
    let count = Arc::new(rt.alloc(), AtomicU64::new(0)).expect(&rt, "out of memory");
    let jobs = JobList::new(rt.alloc(), 4, 1000, count);
    let (_, (first, second)) = thread::join(
        &rt,
        || put_all(&rt, &jobs),
        || thread::join(&rt, || sum(&rt, &jobs), || sum(&rt, &jobs)),
    );
    assert!(rt; first.wrapping_add(second) == 500_500);
}
