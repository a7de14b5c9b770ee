//! Certificates with a row of a port that no file can name.

use crate::fixtures::two_stations;
use ats_certificate::{Certificate, Row};
use ats_checker::{Refusal, check};
use ats_num::Failure;
use ats_tally::Delays;
use std::alloc::AllocGlobal;
use std::process::Abort;

const PORT: u32 = 4_294_967_295;

// The certificate whose only row is of class 6 at that port.
fn stray(rt: &(impl Abort + AllocGlobal)) -> Certificate {
    let mut certificate = Certificate::new(rt.alloc());
    let row = Row {
        port: PORT,
        class: 6,
        higher: 0,
        equal: 0,
        bursts: 0,
        lower: 0,
        least: 0,
        wait: 0,
        bound: 0,
    };
    assert!(rt; certificate.push(row).is_ok());
    certificate
}

// Whether the answer is that this row is stray.
fn is_stray(answer: Result<Delays<'_>, Failure<Refusal>>) -> bool {
    match answer {
        Err(Failure::Fault(Refusal::RowStray { port, class })) => port == PORT && class == 6,
        _ => false,
    }
}

#[test]
fn a_row_of_no_port(rt: HostRuntime) {
    let network = two_stations(&rt);
    let certificate = stray(&rt);
    assert!(rt; is_stray(check(rt.alloc(), &network, &certificate)));
}
