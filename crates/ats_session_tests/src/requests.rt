//! Requests: what a file asks, each fault alone and beside another, and the most requests.

use ats_fixtures::lines::line;
use ats_network::Network;
use ats_num::Failure;
use ats_request_file::read_requests;
use ats_requests::Request;
use std::alloc::AllocGlobal;
use std::process::Abort;

// A file, and a line for each request that is read: `admit` with the name and the class at the first port, `lowest` or
// `withdraw` with the name.
const READ: [(&[u8], &[u8]); 5] = [
    (b"", b""),
    (b"# nothing\n\n   \n", b""),
    (
        b"admit c s1 s2 5 100000000 12336 64 1522 1000000\n\
        admit c s1 s2 7 10000000 672 64 64 1000000\n\
        admit c s1 s2 7 10000000 672 64 64 1000000\n\
        withdraw c\n\
        withdraw c\n\
        admit c s1 s2 lowest 10000000 672 64 64 1000000\n\
        withdraw c\n\
        admit d s1 s2 lowest 100000000 12336 64 1522 1000000\n",
        b"admit c 5\nadmit c 7\nadmit c 7\nwithdraw c\nwithdraw c\nlowest c\nwithdraw c\nlowest d\n",
    ),
    (
        b"  withdraw   a \r\n\nadmit lowest s2 s1 1 1 672 64 64 1",
        b"withdraw a\nadmit lowest 1\n",
    ),
    (
        b"admit c s1 s2 7 100000000000 1000000000 64 2000 1000000000",
        b"admit c 7\n",
    ),
];

const REFUSED: [(&[u8], &[u8]); 44] = [
    (b"add c\n", b"bad-line 1"),
    (b"withdraw\n", b"bad-line 1"),
    (b"withdraw c d\n", b"bad-line 1"),
    (b"withdraw c.d\n", b"bad-line 1"),
    (b"withdraw c\r", b"bad-line 1"),
    (b"\n#\nwithdraw\tc\n", b"bad-line 3"),
    (b"admit c s1 s2 7 10000000 672 64 64\n", b"bad-line 1"),
    (b"admit c s1 s2 7 10000000 672 64 64 1 1\n", b"bad-line 1"),
    (b"admit c! s1 s2 7 10000000 672 64 64 1\n", b"bad-line 1"),
    (b"admit c s1 s2 07 10000000 672 64 64 1\n", b"bad-line 1"),
    (
        b"admit c s1 s2 Lowest 10000000 672 64 64 1\n",
        b"bad-line 1",
    ),
    (b"admit c s1 s2 7 -1 672 64 64 1\n", b"bad-line 1"),
    (b"admit c s1 s2 7 lowest 672 64 64 1\n", b"bad-line 1"),
    (b"admit c s1 s2 7 10000000 6.5 64 64 1\n", b"bad-line 1"),
    (b"admit c s1 s2 7 10000000 672 x 64 1\n", b"bad-line 1"),
    (b"admit c s1 s2 7 10000000 672 64 064 1\n", b"bad-line 1"),
    (
        b"admit c s1 s2 7 10000000 672 64 64 1000000000000000000\n",
        b"bad-line 1",
    ),
    (
        b"admit c s1 s2 7 10000000 672 64 64 999999999999999999\n",
        b"limit 1",
    ),
    (
        b"admit c s1 s2 999999999999999999 10000000 672 64 64 1\n",
        b"bad-class 1",
    ),
    (b"admit c s3 s2 7 10000000 672 64 64 1\n", b"unknown-node 1"),
    (b"admit c s1 b1 7 10000000 672 64 64 1\n", b"unknown-node 1"),
    (b"admit c b1 s2 7 10000000 672 64 64 1\n", b"unknown-node 1"),
    (
        b"admit c s1 s.2 7 10000000 672 64 64 1\n",
        b"unknown-node 1",
    ),
    (b"admit c s1 s1 7 10000000 672 64 64 1\n", b"no-path 1"),
    (b"admit c s1 s2 0 10000000 672 64 64 1\n", b"bad-class 1"),
    (b"admit c s1 s2 8 10000000 672 64 64 1\n", b"bad-class 1"),
    (b"admit c s1 s2 7 0 672 64 64 1\n", b"bad-rate 1"),
    (
        b"admit c s1 s2 lowest 100000000001 672 64 64 1\n",
        b"bad-rate 1",
    ),
    (b"admit c s1 s2 7 10000000 672 63 64 1\n", b"bad-sizes 1"),
    (b"admit c s1 s2 7 10000000 672 64 2001 1\n", b"bad-sizes 1"),
    (
        b"admit c s1 s2 7 10000000 671 64 64 1\n",
        b"burst-below-frame 1",
    ),
    (b"admit c s1 s2 7 10000000 1000000001 64 64 1\n", b"limit 1"),
    (b"admit c s1 s2 7 10000000 672 64 64 0\n", b"limit 1"),
    (
        b"admit c s1 s2 7 10000000 672 64 64 1000000001\n",
        b"limit 1",
    ),
    // Two faults of one line.
    (b"admit c s3 s3 7 10000000 672 64 64 x\n", b"bad-line 1"),
    (b"admit c s1 s1 7 10000000 672 64 64\n", b"bad-line 1"),
    (b"admit c s1 s2 8 10000000 672 64 64 x\n", b"bad-line 1"),
    (b"admit c b1 b1 7 10000000 672 64 64 1\n", b"unknown-node 1"),
    (b"admit c s3 s2 8 10000000 672 64 64 1\n", b"unknown-node 1"),
    (b"admit c s1 s1 8 10000000 672 64 64 1\n", b"no-path 1"),
    (b"admit c s1 s2 8 0 672 63 64 0\n", b"bad-class 1"),
    (b"admit c s1 s2 7 0 671 63 64 0\n", b"bad-rate 1"),
    // Faults of two lines.
    (
        b"withdraw c\nadmit c s1 s1 7 1 672 64 64 1\nadd\n",
        b"no-path 2",
    ),
    (
        b"admit c s1 s2 7 1 672 64 64 0\n#\nadmit c s3 s1 7 1 672 64 64 1",
        b"limit 1",
    ),
];

// A line for each request.
fn told(rt: &(impl Abort + AllocGlobal), requests: &[Request]) -> Vec<u8> {
    let mut text = Vec::new(rt.alloc());
    for request in requests {
        match request {
            Request::Admit(stream) => {
                let name = stream.name();
                text.extend_from_slice(b"admit ").expect(rt, "room");
                text.extend_from_slice(name.bytes()).expect(rt, "room");
                if let Some(class) = stream.classes().first() {
                    text.push(b' ').expect(rt, "room");
                    text.push(b'0' + *class % 8).expect(rt, "room");
                }
            }
            Request::Lowest(stream) => {
                let name = stream.name();
                text.extend_from_slice(b"lowest ").expect(rt, "room");
                text.extend_from_slice(name.bytes()).expect(rt, "room");
            }
            Request::Withdraw(name) => {
                text.extend_from_slice(b"withdraw ").expect(rt, "room");
                text.extend_from_slice(name.bytes()).expect(rt, "room");
            }
        }
        text.push(b'\n').expect(rt, "room");
    }
    text
}

// What becomes of a file: a line for each request that it makes, or the words of its fault.
fn answer(rt: &(impl Abort + AllocGlobal), network: &Network, file: &[u8]) -> Vec<u8> {
    if file.len() > 16_777_216 {
        panic!(rt; "a long file");
    }
    match read_requests(rt.alloc(), file, network) {
        Ok(requests) => told(rt, &requests),
        Err(Failure::Fault(fault)) => {
            let words = format!(in rt.alloc(); "{fault}").expect(rt, "room");
            Vec::from_slice(rt.alloc(), words.as_bytes()).expect(rt, "room")
        }
        Err(Failure::NoMemory) => panic!(rt; "no memory"),
    }
}

#[test]
fn reads_each_form(rt: HostRuntime) {
    let Some(network) = line(rt.alloc()) else {
        panic!(rt; "no network");
    };
    for (file, text) in READ {
        assert!(rt; answer(&rt, &network, file).as_slice() == text);
    }
}

#[test]
fn names_the_first_fault_of_a_request(rt: HostRuntime) {
    let Some(network) = line(rt.alloc()) else {
        panic!(rt; "no network");
    };
    for (file, words) in REFUSED {
        assert!(rt; answer(&rt, &network, file).as_slice() == words);
    }
}

#[test]
fn takes_ten_thousand_requests(rt: HostRuntime) {
    let Some(network) = line(rt.alloc()) else {
        panic!(rt; "no network");
    };
    let mut file = Vec::new(rt.alloc());
    for _ in 0..10_000 {
        file.extend_from_slice(b"withdraw a\n").expect(&rt, "room");
    }
    assert!(rt; answer(&rt, &network, &file) == file);
    file.extend_from_slice(b"#\nwithdraw a\n")
        .expect(&rt, "room");
    assert!(rt; answer(&rt, &network, &file).as_slice() == b"limit 10002".as_slice());
    file.extend_from_slice(b"withdraw a b\n")
        .expect(&rt, "room");
    assert!(rt; answer(&rt, &network, &file).as_slice() == b"limit 10002".as_slice());
}
