// The top call.
ghost use Rattle.std.specs.Prelude.{◌≡◌, ◌≢◌, ◌≤◌, ◌↔◌, ◌⊎◌, ℕ, List, Err, map, string_bytes};
ghost use Rattle.std.specs.Io.KnownBytes.{Appends};
ghost use Rattle.base_types.specs.declared.fault.ScriptFault.{ScriptFault};
ghost use Rattle.base_types.specs.declared.fault.WordFault.{WordFault};
ghost use Rattle.base_outside.specs.Causes.{Rose};
ghost use Rattle.base_outside.specs.Transfers.{AppendsPrefix};
ghost use Rattle.daos_app.specs.Answers.{AsksLoad, IsAnswerOfLoad, IsAnswerSoFar, IsBeforeRun, IsTold, RefusesScript};
ghost use Rattle.daos_app.specs.Words.{run_job_of};

use crate::output::write_text;
use crate::text::text_of;
use base_outside::gate::Gate;
use base_outside::rack::Rack;
use base_outside::sink::Sink;
use base_outside::source::Source;
use daos_status::status::Status;
use std::alloc::Global;
use std::sync::Wait;
use std::thread::Threads;

/// Does all that the program does: reads the words; for a run reads the script from the source, runs it
/// and writes its report to the sink; for a load generates the script, runs it and writes the summary
/// of its report.
///
/// Of two refusals that both hold the words' comes first, then a fault of the source, then the
/// script's, then a fault of the sink. Want of memory may come at any place.
pub fn run_daos<R: Threads + Wait + Sync, S: Source, K: Sink, B: Rack, G: Gate + Sync>(
    rt: &R,
    alloc: Global,
    words: &[String],
    source: &mut S,
    sink: &mut K,
    rack: &mut B,
    gate: &G,
) -> Status
    // The answers that come so far.
    ensures answers { IsAnswerSoFar result }

    // Words are refused exactly where they have a first fault, which is told, or have none but ask for
    // what isn't run so far, where `NotYet` is told.
    ensures words { (fault : WordFault) → (result ≡ Status.Words fault) ↔ (run_job_of (map string_bytes words.now) ≡ Err fault) }

    // Where a script is refused, the bytes read have, as a script for the targets asked, the first fault
    // that is told.
    ensures script { (fault : ScriptFault) → result ≡ Status.Script fault → RefusesScript (map string_bytes words.now) (S.left source.old) (S.left source.new) fault }

    // Faults come only where the outside shows them.
    ensures read { result ≡ Status.ReadFault → Rose (S.count source.old) (S.count source.new) }
    ensures write { result ≡ Status.WriteFault → Rose (K.count sink.old) (K.count sink.new) ⊎ Rose (K.stalls sink.old) (K.stalls sink.new) }

    // At the end the sink holds what it held and then the text that the words ask for, and nothing else:
    // of a run the text of one report for the script that was read, of a load the summary of one report
    // for the generated script; after a fault of the sink, a part of it from the front.
    ensures done { result ≡ Status.Done → ((text : List ℕ) × IsTold (B.gives rack.old) B.Clock.is_read B.Clock.next (map string_bytes words.now) (S.left source.old) (S.left source.new) text × Appends (K.held sink.old) (K.held sink.new) text) }
    ensures prefix { result ≡ Status.WriteFault → ((text : List ℕ) × IsTold (B.gives rack.old) B.Clock.is_read B.Clock.next (map string_bytes words.now) (S.left source.old) (S.left source.new) text × AppendsPrefix (K.held sink.old) (K.held sink.new) text) }

    // A load reads nothing, and so has no answer that reading has.
    ensures unread_by_load { AsksLoad (map string_bytes words.now) → source.new ≡ source.old }
    ensures load { AsksLoad (map string_bytes words.now) → IsAnswerOfLoad result }

    // What a refusal leaves as it was.
    ensures unread { (fault : WordFault) → result ≡ Status.Words fault → source.new ≡ source.old }
    ensures unwritten { result ≢ Status.Done → result ≢ Status.WriteFault → sink.new ≡ sink.old }
    ensures unasked { IsBeforeRun result → rack.new ≡ rack.old }

    // Counts never fall.
    ensures source_later { S.count source.old ≤ S.count source.new }
    ensures sink_later { K.count sink.old ≤ K.count sink.new }
    ensures sink_stalls_later { K.stalls sink.old ≤ K.stalls sink.new }
    ensures rack { B.count rack.new ≡ B.count rack.old }
{
    match text_of(rt, alloc, words, source, rack, gate) {
        Ok(text) => write_text(sink, &text),
        Err(status) => status,
    }
}
