//! Admission: streams that ask to enter a line and to leave it.

ghost use Rattle.ats_requests.specs.Requests.{MayEnter};

use ats_admission::Session;
use ats_network_file::read_network;
use ats_num::{Failure, Name};
use ats_requests::{Answer, Denied};
use ats_streams::Stream;
use ats_tally::{Delays, Reason};
use std::alloc::AllocGlobal;
use std::process::Abort;

const LINE: &[u8] = b"format = 1\n[[station]]\nname = \"s1\"\n[[station]]\nname = \"s2\"\n\
    [[bridge]]\nname = \"b1\"\nprocessing_ns = 1000\nresidence_ns = 1000000\n\
    [[link]]\na = \"s1\"\nb = \"b1\"\nmbps = 1000\npropagation_ns = 500\n\
    [[link]]\na = \"b1\"\nb = \"s2\"\nmbps = 1000\npropagation_ns = 500\n\
    [[stream]]\nname = \"a\"\npath = [\"s1\", \"b1\", \"s2\"]\nclass = 6\nrate_bps = 100000000\n\
    burst_bits = 12336\nmin_octets = 64\nmax_octets = 1522\ndeadline_ns = 30000\n";

// A session over s1 - b1 - s2 with a stream `a` of class 6 from s1 to s2.
fn session(rt: &(impl Abort + AllocGlobal)) -> Session {
    match read_network(rt.alloc(), LINE) {
        Ok(network) => match Session::open(rt.alloc(), network) {
            Ok(session) => session,
            Err(_) => panic!(rt; "no session"),
        },
        Err(_) => panic!(rt; "no network"),
    }
}

// A stream of this name and class on the path of `a`, with frames of 64 to so many octets.
#[tactic(auto, using(ats_streams::proofs::OneListener::alone_branches, ats_network::proofs::TreeLemmas::alone_tree))]
fn stream(
    rt: &(impl Abort + AllocGlobal),
    session: &Session,
    name: &[u8],
    class: u64,
    rate_bps: u64,
    burst_bits: u64,
    max_octets: u64,
) -> Stream
    ensures { MayEnter session.now result }
{
    let stream = Stream::new(
        rt.alloc(),
        Name::new(name).expect(rt, "a name"),
        Vec::from_slice(rt.alloc(), &[0, 2]).expect(rt, "room"),
        Vec::new(rt.alloc()),
        &[class],
        rate_bps,
        burst_bits,
        64,
        max_octets,
        1_000_000,
        None,
    )
    .expect(rt, "a stream");
    assert!(rt; session.network().valid_path(stream.ports()));
    assert!(rt; stream.has_short_routes(session.network().most_ports()));
    stream
}

// A stream of 100 Mb/s with frames of up to 1522 octets.
fn large(rt: &(impl Abort + AllocGlobal), session: &Session, name: &[u8], class: u64) -> Stream
    ensures { MayEnter session.now result }
{
    stream(rt, session, name, class, 100_000_000, 12336, 1522)
}

// A stream of 10 Mb/s with frames of 64 octets.
fn small(rt: &(impl Abort + AllocGlobal), session: &Session, name: &[u8], class: u64) -> Stream
    ensures { MayEnter session.now result }
{
    stream(rt, session, name, class, 10_000_000, 672, 64)
}

// What is answered where there is memory: a class with a sum.
fn answer(rt: &impl Abort, given: Result<(u8, u128), Failure<Denied>>) -> Answer {
    match given {
        Ok((class, sum)) => Answer::Admitted { class, sum },
        Err(Failure::Fault(denied)) => Answer::Refused(denied),
        Err(Failure::NoMemory) => panic!(rt; "no memory"),
    }
}

fn admitted(
    rt: &(impl Abort + AllocGlobal),
    session: &mut Session,
    stream: Stream,
    class: u8,
) -> Answer
    requires { MayEnter session.old stream }
{
    match session.admit(stream) {
        Ok(sum) => answer(rt, Ok((class, sum))),
        Err(failure) => answer(rt, Err(failure)),
    }
}

// That `a` would be late, with this sum.
fn late(rt: &impl Abort, sum: u128) -> Reason {
    Reason::Deadline {
        stream: Name::new(b"a").expect(rt, "a name"),
        listener: None,
        sum,
    }
}

// That no class is given, for one reason with each of the first six and another with the last.
fn none(first: Reason, last: Reason) -> Answer {
    let mut reasons = [first; 7];
    reasons[6] = last;
    Answer::Refused(Denied::NoClass(reasons))
}

// Takes the stream `c` out.
fn withdraw(rt: &impl Abort, session: &mut Session) -> Result<(), Denied> {
    session.withdraw(&Name::new(b"c").expect(rt, "a name"))
}

// The sum of the least bounds of `a`.
fn sum(rt: &(impl Abort + AllocGlobal), session: &Session) -> u128 {
    let certificate = session.certificate(rt.alloc()).expect(rt, "room");
    let delays = Delays::new(rt.alloc(), session.network(), &certificate).expect(rt, "room");
    match delays.sums().first() {
        Some(sum) => *sum,
        None => panic!(rt; "no stream"),
    }
}

#[test]
fn with_a_class(rt: HostRuntime) {
    let mut session = session(&rt);
    let c = large(&rt, &session, b"c", 5);
    let refused = Answer::Refused(Denied::Because(late(&rt, 51_344_000)));
    assert!(rt; admitted(&rt, &mut session, c, 5) == refused);
    assert!(rt; session.network().streams().len() == 1);
    let c = small(&rt, &session, b"c", 7);
    let entered = Answer::Admitted {
        class: 7,
        sum: 28_016_000,
    };
    assert!(rt; admitted(&rt, &mut session, c, 7) == entered);
    assert!(rt; sum(&rt, &session) == 28_265_214);
    let c = small(&rt, &session, b"c", 7);
    assert!(rt; admitted(&rt, &mut session, c, 7) == Answer::Refused(Denied::NameTaken));
    assert!(rt; withdraw(&rt, &mut session).is_ok());
    assert!(rt; withdraw(&rt, &mut session) == Err(Denied::NameUnknown));
    assert!(rt; session.network().streams().len() == 1);
}

#[test]
fn with_the_lowest_class(rt: HostRuntime) {
    let mut session = session(&rt);
    let c = small(&rt, &session, b"c", 7);
    let entered = Answer::Admitted {
        class: 1,
        sum: 30_757_334,
    };
    assert!(rt; answer(&rt, session.admit_lowest(c)) == entered);
    assert!(rt; withdraw(&rt, &mut session).is_ok());
    let refused = none(late(&rt, 51_344_000), late(&rt, 56_677_334));
    let d = large(&rt, &session, b"d", 1);
    assert!(rt; answer(&rt, session.admit_lowest(d)) == refused);
    assert!(rt; session.network().streams().len() == 1);
}
