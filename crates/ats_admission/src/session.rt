//! Sessions.

ghost use Rattle.std.specs.Prelude.{◌≡◌, None, IfOk, IfErr, OnOk, OnErr};
ghost use Rattle.std.specs.Result.{result_err};
ghost use Rattle.ats_num.specs.Failure.{Gives, IsDue};
ghost use Rattle.ats_streams.specs.Stream.{with_class};
ghost use Rattle.ats_network.specs.Edits.{without_named};
ghost use Rattle.ats_network.specs.Pushes.{with_stream};
ghost use Rattle.ats_certificate.specs.Certificate.{Holds};
ghost use Rattle.ats_bound.specs.Least.{least_certificate};
ghost use Rattle.ats_bound.specs.Reason.{reason_of};
ghost use Rattle.ats_requests.specs.Admission.{admit, admit_lowest, withdraw_fault};
ghost use Rattle.ats_requests.specs.Laws.{IsCertified};
ghost use Rattle.ats_requests.specs.Requests.{MayAsk, MayEnter, after, answer};
ghost use Rattle.ats_requests.specs.declared.request.Request.TheVariants.{Admit, Lowest, Withdraw};
ghost use Rattle.ats_admission.specs.Sessions.{IsSession};

use crate::admitting::{admit_stream, admit_with_lowest};
use crate::entering::{stream_named, take_out};
use ats_admission_state::Kept;
use ats_bound::make;
use ats_certificate::Certificate;
use ats_network::Network;
use ats_num::{Failure, Name};
use ats_requests::{Answer, Denied, Request};
use ats_streams::Stream;
use ats_tally::Reason;
use std::alloc::{AllocError, Global};
use std::marker::Model;

/// A network for which a certificate holds, that streams enter and leave so that one holds still. Contracts see the
/// network. Beside it stands what a request needs of it, so that a request is judged along the ports of its stream.
#[derive(Drop)]
pub struct Session {
    network: Network,
    kept: Kept,
}

impl Model for Session {
    ghost use Rattle.ats_network.specs.Network.{DeclaredNetwork};
    ghost use Rattle.ats_admission.specs.Sessions.{IsSession};

    ghost Value = { DeclaredNetwork };

    ghost view = { λ s. s.network };

    ghost invariant = { λ s. IsSession s.network s.kept };
}

impl Session {
    /// A session over this network.
    ///
    /// # Errors
    ///
    /// The network as it was, with the reason against it exactly where there is one, or `Failure::NoMemory` where
    /// memory runs out.
    pub fn open(alloc: Global, network: Network) -> Result<Self, (Network, Failure<Reason>)>
        ensures value { IfOk result (λ session. session ≡ network) }
        ensures free { OnOk result (reason_of network ≡ None) }
        ensures network { IfErr result (λ refusal. refusal.0 ≡ network) }
        ensures reason { IfErr result (λ refusal. IsDue refusal.1 (reason_of network)) }
    {
        match certify(alloc, &network) {
            Ok(kept) => Ok(Session { network, kept }),
            Err(failure) => Err((network, failure)),
        }
    }

    /// The network.
    pub fn network(&self) -> &Network
        ensures value { result.now ≡ self.now }
        ensures certified { IsCertified self.now }
    {
        &self.network
    }

    /// Adds a stream, which has one listener, a valid path no longer than the network's routes may be, and no identity,
    /// as the last of the streams. The sum of its least bounds, in picoseconds.
    ///
    /// # Errors
    ///
    /// The session stays as it was. The first of these, in this order: `NameTaken` exactly where a stream or a flow has
    /// the name; `Limit` exactly where 4096 streams are there, or where their ports and those of the new one are more
    /// than 65,536, or where, by the clocks on its way, a rate or a burst of the new one at one of its ports is over
    /// the limits of a scheduler; `Because` with the reason against the network with the stream added last exactly
    /// where there is one; `Failure::NoMemory` where memory runs out.
    pub fn admit(&mut self, stream: Stream) -> Result<u128, Failure<Denied>>
        requires { MayEnter self.old stream }
        ensures answer { Gives result (admit self.old stream) }
        ensures ok { OnOk result (self.new ≡ with_stream self.old stream) }
        ensures err { OnErr result (self.new ≡ self.old) }
    {
        admit_stream(&mut self.network, &mut self.kept, stream)
    }

    /// Adds a stream, which has one listener, a valid path no longer than the network's routes may be, and no identity,
    /// as the last of the streams, and gives it the first of the classes 1 to 7 at each of its ports with which it is
    /// admitted, whichever classes it has. That class, and the sum of its least bounds, in picoseconds.
    ///
    /// # Errors
    ///
    /// The session stays as it was. `NameTaken` and `Limit` as in `admit`; then `NoClass` with the reason for each
    /// class exactly where it is admitted with none; `Failure::NoMemory` where memory runs out.
    pub fn admit_lowest(&mut self, stream: Stream) -> Result<(u8, u128), Failure<Denied>>
        requires { MayEnter self.old stream }
        ensures answer { Gives result (admit_lowest self.old stream) }
        ensures ok { IfOk result (λ given. self.new ≡ with_stream self.old (with_class stream given.0)) }
        ensures err { OnErr result (self.new ≡ self.old) }
    {
        admit_with_lowest(&mut self.network, &mut self.kept, stream)
    }

    /// Takes out the stream with this name, with its branches. The others keep their order. It takes no memory.
    ///
    /// # Errors
    ///
    /// `NameUnknown` exactly where no stream has the name, also where a flow has it. The session stays as it was.
    pub fn withdraw(&mut self, name: &Name) -> Result<(), Denied>
        ensures answer { result_err result ≡ withdraw_fault self.old name.now }
        ensures network { self.new ≡ without_named self.old name.now }
        ensures err { OnErr result (self.new ≡ self.old) }
    {
        match stream_named(&self.network, name) {
            Some(number) => {
                take_out(&mut self.network, &mut self.kept, number, name);
                Ok(())
            }
            None => Err(Denied::NameUnknown),
        }
    }

    /// Answers a request, whose stream, where it has one, has one listener, a valid path no longer than the network's
    /// routes may be, and no identity. `AllocError` where memory runs out; the session then stays as it was.
    pub fn ask(&mut self, request: Request) -> Result<Answer, AllocError>
        requires { MayAsk self.old request }
        ensures answer { IfOk result (λ given. given ≡ answer self.old request) }
        ensures after { OnOk result (self.new ≡ after self.old request) }
        ensures err { OnErr result (self.new ≡ self.old) }
    {
        match request {
            Request::Admit(stream) => self.ask_admission(stream),
            Request::Lowest(stream) => self.ask_lowest(stream),
            Request::Withdraw(name) => Ok(self.ask_withdrawal(&name)),
        }
    }

    // Answers a stream that asks to enter.
    #[tactic(auto, using(crate::proofs::After::after_ok, crate::proofs::After::after_err))]
    fn ask_admission(&mut self, stream: Stream) -> Result<Answer, AllocError>
        requires { MayEnter self.old stream }
        ensures answer { IfOk result (λ given. given ≡ answer self.old (Admit stream)) }
        ensures after { OnOk result (self.new ≡ after self.old (Admit stream)) }
        ensures err { OnErr result (self.new ≡ self.old) }
    {
        let class = stream.classes()[0];
        match self.admit(stream) {
            Ok(sum) => Ok(Answer::Admitted { class, sum }),
            Err(Failure::NoMemory) => Err(AllocError),
            Err(Failure::Fault(denied)) => Ok(Answer::Refused(denied)),
        }
    }

    // Answers a stream that asks to enter with the lowest class.
    #[tactic(auto, using(crate::proofs::After::lowest_ok, crate::proofs::After::lowest_err))]
    fn ask_lowest(&mut self, stream: Stream) -> Result<Answer, AllocError>
        requires { MayEnter self.old stream }
        ensures answer { IfOk result (λ given. given ≡ answer self.old (Lowest stream)) }
        ensures after { OnOk result (self.new ≡ after self.old (Lowest stream)) }
        ensures err { OnErr result (self.new ≡ self.old) }
    {
        match self.admit_lowest(stream) {
            Ok((class, sum)) => Ok(Answer::Admitted { class, sum }),
            Err(Failure::NoMemory) => Err(AllocError),
            Err(Failure::Fault(denied)) => Ok(Answer::Refused(denied)),
        }
    }

    // Answers that a stream is to be taken out.
    fn ask_withdrawal(&mut self, name: &Name) -> Answer
        ensures answer { result ≡ answer self.old (Withdraw name.now) }
        ensures after { self.new ≡ after self.old (Withdraw name.now) }
    {
        match self.withdraw(name) {
            Ok(()) => Answer::Withdrawn,
            Err(denied) => Answer::Refused(denied),
        }
    }

    /// The certificate of the network with the least waits, which holds. It takes time and memory linear in the number
    /// of ports and the number of the streams' ports. `AllocError` where there is no memory for it.
    pub fn certificate(&self, alloc: Global) -> Result<Certificate, AllocError>
        ensures value { IfOk result (λ certificate. certificate ≡ least_certificate self.now) }
        ensures holds { OnOk result (Holds self.now (least_certificate self.now)) }
    {
        match make(alloc, &self.network) {
            Ok(certificate) => Ok(certificate),
            Err(Failure::NoMemory) => Err(AllocError),
            Err(Failure::Fault(_)) => unreachable!(),
        }
    }
}

// What is kept of a network for which a certificate holds.
//
// # Errors
//
// The reason against the network exactly where there is one. `Failure::NoMemory` where memory runs out.
fn certify(alloc: Global, network: &Network) -> Result<Kept, Failure<Reason>>
    ensures ok { IfOk result (λ kept. IsSession network.now kept) }
    ensures reason { IfErr result (λ failure. IsDue failure (reason_of network.now)) }
{
    let _rules = network.streams(); // for what a network keeps
    let certificate = make(alloc, network)?;
    let kept = Kept::new(alloc, network, &certificate)?;
    Ok(kept)
}
