//! Running `gen`, which reads nothing.
ghost use Rattle.std.specs.Prelude.{◌≤◌, ℕ, List, Option};
ghost use Rattle.calspan_run.specs.Rules.{generator_rules};
ghost use Rattle.calspan_run.specs.Run.{outside};
ghost use Rattle.calspan_run.specs.Serving.{Serves};

use crate::endings::end_with;
use crate::generated::totals::{push_totals, totals_over};
use crate::status::Status;
use byte_io::Sink;
use reply_texts::Pending;

/// Writes the line of counts and sums over the first `count` generated requests.
pub(crate) fn serve_totals<K: Sink>(count: u32, sink: &mut K) -> Status
    requires { count ≤ 100000 }
    ensures { (left : Option (List ℕ)) (reads : ℕ) → Serves (generator_rules count) result
        (outside left (K.taken sink.old) reads (K.faults sink.old))
        (outside left (K.taken sink.new) reads (K.faults sink.new)) }
{
    let mut text = Pending::new();
    push_totals(&mut text, count, &totals_over(count));
    end_with(&text, Status::Done, sink)
}
