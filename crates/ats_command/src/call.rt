//! The call that the program makes.

ghost use Rattle.std.specs.Prelude.{◌≡◌, ◌≤◌, ◌⊎◌, IfOk};
ghost use Rattle.ats_io.specs.Outside.{Rose, Continues};
ghost use Rattle.ats_io.specs.Reads.{ReadsInTurn};
ghost use Rattle.ats_command_input.specs.Command as table;
ghost use Rattle.ats_command_input.specs.Named.{named, view};
ghost use Rattle.ats_command_input.specs.Answer.{HasText};
ghost use Rattle.ats_command_due.specs.Due.{IsTold};
ghost use Rattle.ats_command_due.specs.Soundness.{PrintsAsPromised, Promises};
ghost use Rattle.ats_command_due.specs.Calls.{Answers, Printed, PrintedPrefix, ReadRose, ReadsFiles, IsCalm};
ghost use Rattle.ats_command_due.specs.Calls.{StatusIsDue};

use ats_buffer_commands::{buffers, peaks};
use ats_command_input::{Command, Status, Stop, finish, named_by, print};
use ats_io::{Files, Sink};
use ats_lrq_commands::{lrq_bound, lrq_check, lrq_shape};
use ats_record_commands::{record, witness};
use ats_release_commands::{fit, releases};
use ats_run_commands::{capture, generate, replay};
use ats_verdict_commands::{admit, bound, check, conform, explain, settings, shape, show};
use std::alloc::Global;

/// Carries out the command that the words name, over these files, and prints its text to the sink.
pub fn ats<F: Files, O: Sink>(alloc: Global, words: &[String], files: &mut F, out: &mut O) -> Status
    // Done, Words, Input and Refused have printed a text, whole. Where the files tell their bytes, it is due.
    ensures printed { HasText result
        → Printed (F.told files.old) (named words.now) result (O.held out.old) (O.held out.new) }

    // Words comes exactly where the words are not in the command table, but where writing its line failed.
    ensures words { result ≡ Status.Words → named words.now ≡ table.Unknown }
    ensures unknown { named words.now ≡ table.Unknown
        → (result ≡ Status.Words) ⊎ (result ≡ Status.WriteFailed) }

    // Done to `check NET CERT` has printed the bounds and sums of the rows that the files declare for a network. They
    // are sound in each legal run of it, and there each frame of a stream whose talker keeps its buckets arrives at
    // each listener within the sum for it and within the deadline, where the bridges on the way keep theirs. Done to
    // `lrq check NET CERT` has done so for runs in which bridges have length-rate-quotient regulators, and for talkers
    // that keep their spacing.
    ensures sound { result ≡ Status.Done
        → PrintsAsPromised (F.told files.old) (named words.now) (O.held out.old) (O.held out.new) }

    // ReadFailed comes only where the count of faults of a file that the command comes to rose, or stands at 2^64 - 1,
    // and WriteFailed only where that of the sink did.
    ensures read_failed { result ≡ Status.ReadFailed
        → ReadRose (F.told files.old) (named words.now) (F.faults files.old) (F.faults files.new) }
    ensures write_failed { result ≡ Status.WriteFailed → Rose (O.faults out.old) (O.faults out.new) }

    // They come wherever a count of faults changes: what changed a count is never told as want of memory.
    ensures read_told { ¬ (result ≡ Status.ReadFailed) → F.faults files.new ≡ F.faults files.old }
    ensures write_told { ¬ (result ≡ Status.WriteFailed) → O.faults out.new ≡ O.faults out.old }

    // After WriteFailed a front of a due text was printed, and after ReadFailed and NoMemory nothing.
    ensures cut_short { result ≡ Status.WriteFailed
        → PrintedPrefix (F.told files.old) (named words.now) (O.held out.old) (O.held out.new) }
    ensures silent { (result ≡ Status.ReadFailed) ⊎ (result ≡ Status.NoMemory) → O.held out.new ≡ O.held out.old }

    // Where the files tell their bytes and no fault came, the status that is due comes, or NoMemory.
    ensures complete { IsTold (F.told files.old) (named words.now)
        → IsCalm (named words.now) (F.faults files.old) (F.faults files.new)
        → ¬ Rose (O.faults out.old) (O.faults out.new)
        → (result ≡ Status.NoMemory) ⊎ StatusIsDue (F.told files.old) (named words.now) result }

    // The files hold what they held, and no count of faults fell.
    ensures files { Continues F.told F.faults files.old files.new }
    ensures sink { O.faults out.old ≤ O.faults out.new }

    // Files are read in the order of the words that name them, each at most once and from its front, and no others are.
    ensures in_turn { ReadsInTurn (table.file_words (named words.now)) (F.reads files.old) (F.reads files.new) }
{
    match named_by(words) {
        Some(command) => {
            let outcome = outcome_of(alloc, command, files);
            finish(out, outcome)
        }
        None => print(out, Status::Words, b"words\n"),
    }
}

// What a command of the table comes to.
fn outcome_of<F: Files>(alloc: Global, command: Command, files: &mut F) -> Result<Vec<u8>, Stop>
    ensures due { Answers (F.told files.old) (view command.entry) result }
    ensures sound { IfOk result (λ text. Promises (F.told files.old) (view command.entry) text.items) }
    ensures reads { ReadsFiles F.told F.faults F.reads (view command.entry) files.old files.new result }
{
    match command {
        Command::Shape(file) => shape(alloc, file, files),
        Command::Show(net) => show(alloc, net, files),
        Command::Bound(net) => bound(alloc, net, files),
        Command::Explain(net) => explain(alloc, net, files),
        Command::Settings(net) => settings(alloc, net, files),
        Command::Check(net, certificate) => check(alloc, net, certificate, files),
        Command::Buffers(net, certificate) => buffers(alloc, net, certificate, files),
        Command::Conform(net, schedule) => conform(alloc, net, schedule, files),
        Command::Admit(net, requests) => admit(alloc, net, requests, files),
        Command::Replay(net, schedule, order) => replay(alloc, net, schedule, order, files),
        Command::Capture(net, station, file, order) => {
            capture(alloc, net, station, file, order, files)
        }
        Command::Generate(net, seed, count) => generate(alloc, net, seed, count, files),
        Command::Peaks(net, certificate, schedule, order) => {
            peaks(alloc, net, certificate, schedule, order, files)
        }
        Command::LrqShape(file) => lrq_shape(alloc, file, files),
        Command::LrqBound(net) => lrq_bound(alloc, net, files),
        Command::LrqCheck(net, certificate) => lrq_check(alloc, net, certificate, files),
        Command::Record(net, schedule, order, port) => {
            record(alloc, net, schedule, order, port, files)
        }
        Command::Witness(net, name) => witness(alloc, net, name, files),
        Command::Releases(net, station, file) => releases(alloc, net, station, file, files),
        Command::Fit(net, schedule) => fit(alloc, net, schedule, files),
    }
}
