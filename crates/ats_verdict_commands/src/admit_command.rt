//! `admit NET REQUESTS`: answers requests to admit streams and to withdraw them.

ghost use Rattle.std.specs.Prelude.{◌≡◌, List, All, IfOk, IsErrOf};
ghost use Rattle.ats_io.specs.Outside.{IfTold};
ghost use Rattle.ats_num.specs.Failure.{IsDue};
ghost use Rattle.ats_bound.specs.Reason.{reason_of};
ghost use Rattle.ats_requests.specs.Requests.{MayAsk};
ghost use Rattle.ats_requests.specs.declared.request.Request.{Request};
ghost use Rattle.ats_admission_text.specs.Text.{admission_text};
ghost use Rattle.ats_command_input.specs.Command as table;
ghost use Rattle.ats_command_input.specs.Outcome.{Gives, ReadsFile};
ghost use Rattle.ats_command_due.specs.Calls.{Answers, ReadsFiles};
ghost use Rattle.ats_command_due.specs.Judged.{admission_judged, requests_judged};

use ats_admission::Session;
use ats_admission_text::answered;
use ats_command_input::{Stop, network_in, requests_in};
use ats_io::Files;
use ats_network::Network;
use ats_num::Failure;
use ats_requests::Request;
use ats_tally::Reason;
use ats_verdict_text::refused_network;
use std::alloc::{AllocError, Global};

/// The text of `admit NET REQUESTS`: the answers to the requests, one after the other, each given for the network as
/// the ones before left it, and the number of streams at the end. It stops where the network's file and then where the
/// requests' has a fault or can't be read, and where no certificate of the network as it is holds.
pub fn admit<F: Files>(
    alloc: Global,
    net: &str,
    requests: &str,
    files: &mut F,
) -> Result<Vec<u8>, Stop>
    ensures due { Answers (F.told files.old) (table.Admit net.now requests.now) result }
    ensures reads { ReadsFiles F.told F.faults F.reads (table.Admit net.now requests.now) files.old files.new result }
{
    let network = network_in(alloc, net, files)?;
    admission_of(alloc, network, requests, files)
}

// What is printed of the requests that a file makes.
fn admission_of<F: Files>(
    alloc: Global,
    network: Network,
    requests: &str,
    files: &mut F,
) -> Result<Vec<u8>, Stop>
    ensures due { IfTold (F.told files.old requests.now) (λ bytes.
        Gives (λ text. text.items) result (requests_judged network requests.now bytes)) }
    ensures reads { ReadsFile F.told F.faults F.reads requests.now files.old files.new result }
{
    let asked = requests_in(alloc, requests, &network, files)?;
    answers_of(alloc, network, asked)
}

// What is printed of the answers to requests, or why no certificate of the network holds.
fn answers_of(alloc: Global, network: Network, asked: Vec<Request>) -> Result<Vec<u8>, Stop>
    requires asked { All (MayAsk network) asked.items }
    ensures due { Gives (λ text. text.items) result (admission_judged network asked.items) }
    ensures was_read { ¬ IsErrOf result Stop.ReadFailed }
{
    match Session::open(alloc, network) {
        Ok(session) => Ok(text_of(alloc, session, asked)?),
        Err((network, failure)) => refusal_for(alloc, &network, failure),
    }
}

// What is printed of the answers of a session.
fn text_of(alloc: Global, mut session: Session, asked: Vec<Request>) -> Result<Vec<u8>, AllocError>
    requires { All (MayAsk session) asked.items }
    ensures { IfOk result (λ text. text.items ≡ admission_text session asked.items) }
{
    answered(alloc, &mut session, asked)
}

// What is printed where no session is opened over a network, whatever is asked.
fn refusal_for(alloc: Global, network: &Network, failure: Failure<Reason>) -> Result<Vec<u8>, Stop>
    requires { IsDue failure (reason_of network.now) }
    ensures due { (asked : List Request)
        → Gives (λ text. text.items) result (admission_judged network.now asked) }
    ensures was_read { ¬ IsErrOf result Stop.ReadFailed }
{
    let topology = network.topology();
    match failure {
        Failure::Fault(reason) => Err(Stop::Refused(refused_network(alloc, topology, &reason)?)),
        Failure::NoMemory => Err(Stop::NoMemory),
    }
}
