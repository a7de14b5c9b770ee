//! Schedules: what a file declares, each fault alone and beside another, spellings of a file, and
//! texts that are written back.

use ats_fixtures::lines::line;
use ats_fixtures::trees::{fork, hub};
use ats_network::Network;
use ats_num::Failure;
use ats_schedule::{read_schedule, write_schedule};
use std::alloc::AllocGlobal;
use std::process::Abort;

// A file, and the text that is written of what it declares; or the words of its fault.
const READ: [(&[u8], &[u8]); 9] = [
    (
        b"at_ps,sender,octets\n0,a,1522\n",
        b"at_ps,sender,octets\n0,a,1522\n",
    ),
    (b"at_ps,sender,octets\n", b"at_ps,sender,octets\n"),
    (b"at_ps,sender,octets", b"at_ps,sender,octets\n"),
    (
        b"at_ps,sender,octets\n5,a,64\n5,f,2000\n",
        b"at_ps,sender,octets\n5,a,64\n5,f,2000\n",
    ),
    (
        b"at_ps,sender,octets\r\n0,a,64\r\n1,a,64",
        b"at_ps,sender,octets\n0,a,64\n1,a,64\n",
    ),
    (
        b"\xef\xbb\xbfat_ps,sender,octets\n0,a,64\n",
        b"at_ps,sender,octets\n0,a,64\n",
    ),
    (
        b"\n\nat_ps,sender,octets\n\n0,a,64\n\n",
        b"at_ps,sender,octets\n0,a,64\n",
    ),
    (
        b"\"at_ps\",sender,octets\n\"0\",\"a\",64\n",
        b"at_ps,sender,octets\n0,a,64\n",
    ),
    (
        b"at_ps,sender,octets\n100000000000000000,a,64\n",
        b"at_ps,sender,octets\n100000000000000000,a,64\n",
    ),
];

const REFUSED: [(&[u8], &[u8]); 30] = [
    (b"", b"bad-row 1"),
    (b"\n", b"bad-row 1"),
    (b"0,a,64\n", b"bad-row 1"),
    (b"at_ps,sender\n0,a\n", b"bad-row 1"),
    (b"at_ps,sender,octets,class\n", b"bad-row 1"),
    (b"at_ps,octets,sender\n", b"bad-row 1"),
    (b"at_ps,sender,octets\n0,a\n", b"bad-row 2"),
    (b"at_ps,sender,octets\n0,a,64,\n", b"bad-row 2"),
    (b"at_ps,sender,octets\n0,a,64\n\n0\n", b"bad-row 3"),
    (b"at_ps,sender,octets\n0,q,64\n", b"unknown-name 2"),
    (b"at_ps,sender,octets\n0,,64\n", b"unknown-name 2"),
    (b"at_ps,sender,octets\n0,a b,64\n", b"unknown-name 2"),
    (b"at_ps,sender,octets\n00,a,64\n", b"bad-number 2"),
    (b"at_ps,sender,octets\n-1,a,64\n", b"bad-number 2"),
    (b"at_ps,sender,octets\n0,a,6.4\n", b"bad-number 2"),
    (b"at_ps,sender,octets\n0,a, 64\n", b"bad-number 2"),
    (b"at_ps,sender,octets\n0,a,63\n", b"bad-size 2"),
    (b"at_ps,sender,octets\n0,a,2001\n", b"bad-size 2"),
    (b"at_ps,sender,octets\n0,a,4294967360\n", b"bad-size 2"),
    (b"at_ps,sender,octets\n5,a,64\n4,a,64\n", b"time-back 3"),
    (
        b"at_ps,sender,octets\n100000000000000001,a,64\n",
        b"limit 2",
    ),
    (
        b"at_ps,sender,octets\n18446744073709551616,a,64\n",
        b"limit 2",
    ),
    (b"at_ps,sender,octets\nx,q,64\n", b"unknown-name 2"),
    (b"at_ps,sender,octets\nx,a,63\n", b"bad-number 2"),
    (b"at_ps,sender,octets\n5,a,64\n4,a,63\n", b"bad-size 3"),
    (
        b"at_ps,sender,octets\n100000000000000001,a,63\n",
        b"bad-size 2",
    ),
    (b"at_ps,sender,octets\n0,q\n", b"bad-row 2"),
    (b"at_ps,sender,octets\n0,a,63\n0,q,64\n", b"bad-size 2"),
    (b"at_ps,sender,octets\n5,a,64\n4,a,64\n0\n", b"time-back 3"),
    (b"at_ps,sender,octets\n0,a,\"64\n1,a,64\n", b"bad-number 2"),
];

// What becomes of a file: the text of what it declares, or the words of its fault.
fn answer(rt: &(impl Abort + AllocGlobal), network: &Network, file: &[u8]) -> Vec<u8> {
    match read_schedule(rt.alloc(), file, network) {
        Ok(releases) => write_schedule(rt.alloc(), &releases, network).expect(rt, "room"),
        Err(Failure::Fault(fault)) => {
            let words = format!(in rt.alloc(); "{fault}").expect(rt, "room");
            Vec::from_slice(rt.alloc(), words.as_bytes()).expect(rt, "room")
        }
        Err(Failure::NoMemory) => panic!(rt; "no memory"),
    }
}

#[test]
fn reads_each_spelling(rt: HostRuntime) {
    let Some(network) = line(rt.alloc()) else {
        panic!(rt; "no network");
    };
    for (file, text) in READ {
        assert!(rt; answer(&rt, &network, file).as_slice() == text);
    }
}

#[test]
fn names_the_first_fault(rt: HostRuntime) {
    let Some(network) = line(rt.alloc()) else {
        panic!(rt; "no network");
    };
    for (file, words) in REFUSED {
        assert!(rt; answer(&rt, &network, file).as_slice() == words);
    }
}

#[test]
fn takes_as_many_releases_as_a_run_may_have(rt: HostRuntime) {
    let Some(network) = line(rt.alloc()) else {
        panic!(rt; "no network");
    };
    let mut file = Vec::from_slice(rt.alloc(), b"at_ps,sender,octets\n").expect(&rt, "room");
    for _ in 0..200_000 {
        file.extend_from_slice(b"7,a,64\n").expect(&rt, "room");
    }
    assert!(rt; answer(&rt, &network, &file) == file);
    file.extend_from_slice(b"7,a,64\n").expect(&rt, "room");
    assert!(rt; answer(&rt, &network, &file).as_slice() == b"limit 200002".as_slice());
}

#[test]
fn reads_releases_of_a_stream_with_two_listeners(rt: HostRuntime) {
    let Some(network) = fork(rt.alloc()) else {
        panic!(rt; "no network");
    };
    let file = b"at_ps,sender,octets\n5,a,64\n5,f,2000\n";
    assert!(rt; answer(&rt, &network, file).as_slice() == file.as_slice());
}

// Each frame of the hub has 1023 ports.
#[test]
fn takes_as_many_ports_as_a_run_may_have(rt: HostRuntime) {
    let Some(network) = hub(rt.alloc(), 1022) else {
        panic!(rt; "no network");
    };
    let mut file = Vec::from_slice(rt.alloc(), b"at_ps,sender,octets\n").expect(&rt, "room");
    for _ in 0..3128 {
        file.extend_from_slice(b"7,a,64\n").expect(&rt, "room");
    }
    assert!(rt; answer(&rt, &network, &file) == file);
    file.extend_from_slice(b"7,a,64\n").expect(&rt, "room");
    assert!(rt; answer(&rt, &network, &file).as_slice() == b"limit 3130".as_slice());
}
