//! What is printed of answers to requests.

ghost use Rattle.std.specs.Prelude.{◌≡◌, ◌++◌, All, IfOk, OnOk};
ghost use Rattle.ats_requests.specs.Requests.{MayAsk, after, after_all, answer};
ghost use Rattle.ats_admission_text.specs.Inside.{AnswerInside};
ghost use Rattle.ats_admission_text.specs.Text.{admission_text, answer_text, answers_text, name_asked};

use crate::pieces::{write_denied, write_given, write_named, write_number};
use ats_admission::Session;
use ats_num::Name;
use ats_requests::{Answer, Request};
use ats_topology::Topology;
use std::alloc::{AllocError, Global};

/// Asks a session these requests, one after the other, each of which may be asked. A line for each answer, with seven
/// more for a stream that gets no class, and a line with the number of streams at the end.
///
/// # Errors
///
/// `AllocError` where memory runs out. The session has then answered the requests up to some place.
pub fn answered(
    alloc: Global,
    session: &mut Session,
    requests: Vec<Request>,
) -> Result<Vec<u8>, AllocError>
    requires { All (MayAsk session.old) requests.items }
    ensures text { IfOk result (λ text. text.items ≡ admission_text session.old requests.items) }
    ensures after { OnOk result (session.new ≡ after_all session.old requests.items) }
{
    let mut out = Vec::new(alloc);
    ask_all(&mut out, session, requests)?;
    write_number(&mut out, b"streams ", session.network().streams().len())?;
    out.extend_from_slice(b"\n")?;
    Ok(out)
}

// Asks these requests, one after the other, and writes the answers.
fn ask_all(
    out: &mut Vec<u8>,
    session: &mut Session,
    requests: Vec<Request>,
) -> Result<(), AllocError>
    requires { All (MayAsk session.old) requests.items }
    ensures text { OnOk result (out.new.items ≡ out.old.items ++ answers_text session.old requests.items) }
    ensures after { OnOk result (session.new ≡ after_all session.old requests.items) }
{
    for request in requests {
        ask_one(out, session, request)?;
    }
    Ok(())
}

// Asks a request, and writes the answer.
fn ask_one(out: &mut Vec<u8>, session: &mut Session, request: Request) -> Result<(), AllocError>
    requires { MayAsk session.old request }
    ensures text { OnOk result (out.new.items
        ≡ out.old.items ++ answer_text session.old.topology (name_asked request) (answer session.old request)) }
    ensures after { OnOk result (session.new ≡ after session.old request) }
    ensures topology { OnOk result (session.new.topology ≡ session.old.topology) }
    ensures most_ports { OnOk result (session.new.most_ports ≡ session.old.most_ports) }
{
    let _before = session.network(); // for what a session keeps
    let name = name_asked(&request);
    match session.ask(request) {
        Ok(answer) => write_answer(out, session.network().topology(), &name, &answer),
        Err(e) => Err(e),
    }
}

// The name of the stream that a request is about.
fn name_asked(request: &Request) -> Name
    ensures { result ≡ name_asked request.now }
{
    match request {
        Request::Admit(stream) => stream.name(),
        Request::Lowest(stream) => stream.name(),
        Request::Withdraw(name) => *name,
    }
}

// The lines of an answer about the stream of this name.
fn write_answer(
    out: &mut Vec<u8>,
    topology: &Topology,
    name: &Name,
    answer: &Answer,
) -> Result<(), AllocError>
    requires { AnswerInside topology.now answer.now }
    ensures { OnOk result (out.new.items ≡ out.old.items ++ answer_text topology.now name.now answer.now) }
{
    match answer {
        Answer::Admitted { class, sum } => {
            write_named(out, b"admitted ", name)?;
            write_given(out, *class, *sum)
        }
        Answer::Withdrawn => {
            write_named(out, b"withdrawn ", name)?;
            out.extend_from_slice(b"\n")
        }
        Answer::Refused(denied) => {
            write_named(out, b"denied ", name)?;
            write_denied(out, topology, denied)
        }
    }
}
