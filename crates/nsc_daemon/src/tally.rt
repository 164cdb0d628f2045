// Hits of a helper, which the thread that accepts takes.
use crate::fast_path::Hits;
use nsc_model::Databases;
use std::sync::atomic::{AtomicU64, Ordering};

/// Counts hits of one database that the thread that accepts did not take.
#[derive(Drop)]
struct Count {
    found: AtomicU64,
    not_found: AtomicU64,
}

/// Counts hits of a helper that the thread that accepts did not take.
#[derive(Drop)]
pub struct Tally {
    counts: Databases<Count>,
}

impl Count {
    fn new() -> Count {
        Count {
            found: AtomicU64::new(0),
            not_found: AtomicU64::new(0),
        }
    }

    fn add(&self, hits: Hits) {
        if hits.found > 0 {
            self.found.fetch_add(hits.found, Ordering::SeqCst);
        }
        if hits.not_found > 0 {
            self.not_found.fetch_add(hits.not_found, Ordering::SeqCst);
        }
    }

    fn take(&self) -> Hits {
        Hits {
            found: self.found.swap(0, Ordering::SeqCst),
            not_found: self.not_found.swap(0, Ordering::SeqCst),
        }
    }
}

impl Tally {
    /// Counts no hit.
    pub fn new() -> Tally {
        Tally {
            counts: Databases {
                passwd: Count::new(),
                group: Count::new(),
                hosts: Count::new(),
                services: Count::new(),
            },
        }
    }

    /// Adds hits.
    pub fn add(&self, hits: &Databases<Hits>) {
        self.counts.passwd.add(hits.passwd);
        self.counts.group.add(hits.group);
        self.counts.hosts.add(hits.hosts);
        self.counts.services.add(hits.services);
    }

    /// Takes all hits.
    pub fn take(&self) -> Databases<Hits> {
        Databases {
            passwd: self.counts.passwd.take(),
            group: self.counts.group.take(),
            hosts: self.counts.hosts.take(),
            services: self.counts.services.take(),
        }
    }
}
