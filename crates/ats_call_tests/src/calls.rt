//! Whole calls over files and a sink in memory: each read and each write failing in turn, a sink that
//! takes few bytes at a time, one without room for the text, and files and a sink that never fail.

use ats_command::ats;
use ats_command_input::Status;
use ats_command_law::ats_surely;
use ats_io::{MemFiles, MemSink, SureFiles, SureSink};
use std::alloc::AllocGlobal;
use std::process::Abort;

// A stream whose burst is two longest frames, and two of these.
const SHAPE: &[u8] =
    b"residence 1000000\nstream x 100000000 24672 64 1522\nframe 0 x 1522\nframe 12336000 x 1522\n";

const NETWORK: &[u8] =
    b"format = 1\n[[station]]\nname = \"s1\"\n[[station]]\nname = \"s2\"\n[[link]]\na = \"s1\"\nb = \"s2\"\n\
    mbps = 1000\npropagation_ns = 500\n[[stream]]\nname = \"a\"\npath = [\"s1\", \"s2\"]\nclass = 6\n\
    rate_bps = 100000000\nburst_bits = 12336\nmin_octets = 64\nmax_octets = 1522\n\
    address = \"02:00:00:00:00:01\"\nvlan = 1\n";

// The same, where the burst of a is two longest frames.
const WIDE: &[u8] =
    b"format = 1\n[[station]]\nname = \"s1\"\n[[station]]\nname = \"s2\"\n[[link]]\na = \"s1\"\nb = \"s2\"\n\
    mbps = 1000\npropagation_ns = 500\n[[stream]]\nname = \"a\"\npath = [\"s1\", \"s2\"]\nclass = 6\n\
    rate_bps = 100000000\nburst_bits = 24672\nmin_octets = 64\nmax_octets = 1522\n";

const CERTIFICATE: &[u8] =
    b"port,class,higher,equal,bursts,lower,least,wait,bound\ns1>s2,6,0,100000000000,12336,0,672,11664000,12836000\n";

const REQUESTS: &[u8] = b"admit c s1 s2 7 10000000 672 64 64 1000000\nwithdraw a\n";

const SCHEDULE: &[u8] = b"at_ps,sender,octets\n0,a,1522\n";

// A record of a frame of stream `a`, with its time in microseconds and the lowest byte of each number first.
const CAPTURE: &[u8] = b"\xd4\xc3\xb2\xa1\x02\x00\x04\x00\x00\x00\x00\x00\x00\x00\x00\x00\
    \xff\xff\x00\x00\x01\x00\x00\x00\
    \x00\xf1\x53\x65\x00\x00\x00\x00\x10\x00\x00\x00\x2a\x00\x00\x00\
    \x02\x00\x00\x00\x00\x01\x02\x00\x00\x00\x00\x11\x81\x00\xc0\x01";

// What port s1>s2 sends of the schedule: a frame at 0, of class 6, whose record has 18 bytes and tells 1518 octets.
const RECORD: &[u8] = b"\x4d\x3c\xb2\xa1\x02\x00\x04\x00\x00\x00\x00\x00\x00\x00\x00\x00\
    \x00\x00\x04\x00\x01\x00\x00\x00\
    \x00\x00\x00\x00\x00\x00\x00\x00\x12\x00\x00\x00\xee\x05\x00\x00\
    \x02\x00\x00\x00\x00\x01\x02\x00\x00\x00\x00\x00\x81\x00\xc0\x01\x88\xb5";

// The most bytes that a write takes.
const MOST: usize = 16;

// One more than the writes of the longest text.
const WRITES: u32 = 20;

// Each command with the number of its reads and the text that is due.
const COMMANDS: &[(&[&str], u32, &[u8])] = &[
    (
        &["shape", "s"],
        2,
        b"frame 0 x 1522 0 eligible 0\nframe 1 x 1522 12336000 eligible 12336000\n\
        total frames 2 eligible 2 late 0 size 0\n",
    ),
    (
        &["show", "n"],
        2,
        b"port 0 s1>s2 1000 500000\nport 1 s2>s1 1000 500000\nstream a 6 s1>s2\ntotal ports 2 streams 1 flows 0\n",
    ),
    (&["bound", "n"], 2, CERTIFICATE),
    (
        &["explain", "n"],
        2,
        b"stream a sum 12836000 deadline 1000000000000 slack 999987164000\n\
        hop s1>s2 6 lower 0 - bursts 11664000 higher 0 frame 672000 latency 500000 bound 12836000\n\
        port s1>s2 load 100000000000\ntotal streams 1 late 0 over 0 tightest a slack 999987164000\n",
    ),
    (
        &["settings", "n"],
        2,
        b"bridge,received_from,class,stream,rate_bps,burst_bits,max_octets,residence_ns,sent_to,class_there\n",
    ),
    (
        &["check", "n", "c"],
        4,
        b"hop a s1>s2 12836000\nsum a 12836000\naccepted 1\n",
    ),
    (&["buffers", "n", "c"], 4, b"buffer s1>s2 6 13569\nrows 1\n"),
    (
        &["buffers", "n", "c", "r", "early"],
        6,
        b"buffer s1>s2 6 13569 peak 12336\nrows 1\n",
    ),
    (&["conform", "n", "r"], 4, b"conforms 1\n"),
    (
        &["replay", "n", "r", "early"],
        4,
        b"frame 0 a 1522 0\nhop s1>s2 0 eligible 0 start 0 end 12336000\nsink 12836000\n\
        total frames 1 sunk 1 late 0 size 0\n",
    ),
    (
        &["capture", "n", "s1", "p", "early"],
        4,
        b"frame 0 a 64 0\nhop s1>s2 0 eligible 0 start 0 end 672000\nsink 1172000\n\
        total frames 1 sunk 1 late 0 size 0\nrecords 1 unidentified 0 oversize 0\n",
    ),
    // The first draw from the seed 1 is 908834774, so the frame has 394 octets.
    (
        &["generate", "n", "1", "1"],
        2,
        b"stream a frames 1 sunk 1 late 0 size 0 worst 3812000 bound 12836000\ntotal frames 1 sunk 1 late 0 size 0\n",
    ),
    // c waits for a frame of a, of 12336000 picoseconds; its own takes 672000, and the link 500000.
    (
        &["admit", "n", "q"],
        4,
        b"admitted c 7 13508000\nwithdrawn a\nstreams 1\n",
    ),
    // The burst would let the second frame through at once; its rate takes 123360000 picoseconds for the first one.
    (
        &["lrq", "shape", "s"],
        2,
        b"frame 0 x 1522 0 eligible 0\nframe 1 x 1522 12336000 eligible 123360000\n\
        total frames 2 eligible 2 late 0 size 0\n",
    ),
    // The wider burst of a is narrowed to one longest frame, of 12336 bits.
    (&["lrq", "bound", "w"], 2, CERTIFICATE),
    (
        &["lrq", "check", "w", "c"],
        4,
        b"hop a s1>s2 12836000\nsum a 12836000\naccepted 1\n",
    ),
    (&["record", "n", "r", "early", "s1>s2"], 4, RECORD),
    // The burst of a is one longest frame, which takes 12336000 picoseconds and the link's 500000.
    (
        &["witness", "n", "a"],
        2,
        b"hop s1>s2 12836000\nrelease 1 a 1522\nwitness a delay 12836000 bound 12836000 gap 0\n",
    ),
    (
        &["releases", "n", "s1", "p"],
        4,
        b"at_ps,sender,octets\n0,a,64\n",
    ),
    (
        &["fit", "n", "r"],
        4,
        b"stream a frames 1 octets 1522 1522 burst 12336 of 12336\ntotal frames 1 streams 1 over 0\n",
    ),
];

// The words, owned.
fn owned(rt: &(impl Abort + AllocGlobal), words: &[&str]) -> Vec<String> {
    let mut strings = Vec::new(rt.alloc());
    for word in words {
        let text = String::from_str(rt.alloc(), word).expect(rt, "room");
        strings.push(text).expect(rt, "room");
    }
    strings
}

// A file of this name that holds this text.
fn file(rt: &(impl Abort + AllocGlobal), name: &str, text: &[u8]) -> (String, Vec<u8>) {
    (
        String::from_str(rt.alloc(), name).expect(rt, "room"),
        Vec::from_slice(rt.alloc(), text).expect(rt, "room"),
    )
}

// The files that the commands name.
fn files(rt: &(impl Abort + AllocGlobal)) -> Vec<(String, Vec<u8>)> {
    let (shape, network) = (file(rt, "s", SHAPE), file(rt, "n", NETWORK));
    let (certificate, schedule) = (file(rt, "c", CERTIFICATE), file(rt, "r", SCHEDULE));
    let (capture, requests) = (file(rt, "p", CAPTURE), file(rt, "q", REQUESTS));
    let wide = file(rt, "w", WIDE);
    vec![in rt.alloc();
        shape,
        network,
        certificate,
        schedule,
        capture,
        requests,
        wide,
    ]
    .expect(rt, "room")
}

// The end of a call with these words over these files and a sink with so much room, and the sink after it. The read and
// the write of these numbers fail, or none where it is 0.
fn call(
    rt: &(impl Abort + AllocGlobal),
    words: &[&str],
    read: u32,
    write: u32,
    room: usize,
) -> (Status, MemSink) {
    let words = owned(rt, words);
    let reads = vec![in rt.alloc(); read].expect(rt, "room");
    let writes = vec![in rt.alloc(); write].expect(rt, "room");
    let mut files = MemFiles::new(rt.alloc(), files(rt), reads).expect(rt, "room");
    let mut out = MemSink::new(rt.alloc(), room, MOST, writes).expect(rt, "room");
    let status = ats(rt.alloc(), &words, &mut files, &mut out);
    (status, out)
}

#[test]
fn each_read_fails(rt: HostRuntime) {
    for (words, reads, text) in COMMANDS {
        for read in 1..8u32 {
            let (status, out) = call(&rt, words, read, 0, 4096);
            if read <= *reads {
                assert!(rt; status == Status::ReadFailed);
                assert!(rt; out.bytes().is_empty());
            } else {
                assert!(rt; status == Status::Done);
                assert!(rt; out.bytes() == *text);
            }
        }
    }
}

#[test]
fn each_write_fails(rt: HostRuntime) {
    for (words, _, text) in COMMANDS {
        assert!(rt; text.len() < WRITES as usize * MOST);
        for taken in 0..WRITES {
            let front = text.len().min(taken as usize * MOST);
            let is_whole = front == text.len();
            let (status, out) = call(&rt, words, 0, taken + 1, 4096);
            assert!(rt; is_whole || status == Status::WriteFailed);
            assert!(rt; !is_whole || status == Status::Done);
            assert!(rt; out.bytes() == &text[..front]);
            if is_whole {
                break;
            }
        }
    }
}

#[test]
fn words_are_not_written(rt: HostRuntime) {
    let (status, out) = call(&rt, &[], 0, 1, 4096);
    assert!(rt; status == Status::WriteFailed);
    assert!(rt; out.bytes().is_empty());
}

#[test]
fn room_ends(rt: HostRuntime) {
    let (status, out) = call(&rt, &["bound", "n"], 0, 0, 20);
    assert!(rt; status == Status::WriteFailed);
    assert!(rt; out.bytes() == &CERTIFICATE[..20]);
}

#[test]
fn surely_answers(rt: HostRuntime) {
    for (words, _, _) in COMMANDS {
        let words = owned(&rt, words);
        let mut files = SureFiles::new(files(&rt));
        let status = ats_surely(rt.alloc(), &words, &mut files, &mut SureSink::new());
        assert!(rt; status == Status::Done);
    }
}
