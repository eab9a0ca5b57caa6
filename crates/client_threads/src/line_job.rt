//! A client whose lines a service answers.

ghost use Rattle.std.specs.Prelude.{◌≡◌};

use crate::job::Job;
use request_loop::{Clock, LoopEnd, Service, Sink, Source, serve_client};
use std::alloc::Global;
use std::sync::Wait;

/// A client's ends, the service that answers its lines, and how its loop ended, once it was served.
#[derive(Drop)]
pub struct LineJob<S, K, C, V> {
    pub source: S,
    pub sink: K,
    pub clock: C,
    pub service: V,
    pub end: LoopEnd,
}

impl<S, K, C, V> LineJob<S, K, C, V> {
    /// A client that is to be served. Until then its end is that of one for which nothing was read or written.
    pub fn new(source: S, sink: K, clock: C, service: V) -> LineJob<S, K, C, V>
        ensures source { result.source ≡ source }
        ensures sink { result.sink ≡ sink }
        ensures clock { result.clock ≡ clock }
        ensures service { result.service ≡ service }
    {
        LineJob {
            source,
            sink,
            clock,
            service,
            end: LoopEnd::NoMemory,
        }
    }
}

impl<S: Source, K: Sink, C: Clock, V: Service> Job for LineJob<S, K, C, V> {
    ghost use Rattle.client_threads.specs.Lines.{ServesLines};

    ghost ready = { λ _. Unit {0} };

    ghost serves = { ServesLines S.left S.taken S.faults K.written K.faults C.given V.answered };

    ghost end = { λ job. job.end };

    fn serve<R: Wait>(&mut self, _rt: &R, alloc: Global) {
        self.end = serve_client(
            alloc,
            &mut self.source,
            &mut self.sink,
            &mut self.clock,
            &mut self.service,
        );
    }

    fn end(&self) -> LoopEnd {
        self.end
    }
}
