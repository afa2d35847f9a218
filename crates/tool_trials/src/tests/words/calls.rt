//! Requests to read and to write.
use super::*;
use std::process::Abort;
use std::test::Fail;

/// Words after `bacrp`, and the body of the request.
static READS: [(&str, &str); 5] = [
    ("1234 0 5 85 --mac 127.0.0.1:47808", "0c000000051955"),
    ("1234 0 5 85 --mac 127.0.0.1", "0c000000051955"),
    ("1234 1 1 87 0 --mac=127.0.0.1", "0c0040000119572900"),
    ("--mac 127.0.0.1 -- 1234 0 5 85", "0c000000051955"),
    (LONGEST_READ, "0cffffffff1b3fffff2cffffffff"),
];

const LONGEST_READ: &str = "--mac 127.0.0.1 4194303 1023 4194303 4194303 4294967295";

/// Words after `bacwp 1234`, with the peer before them, and the body of the request.
static MARKED: [(&str, &str); 2] = [
    ("2 2 85 0 -1 -- 7 --x", "0c0080000219553e74002d2d783f"),
    ("2 2 85 0 -1 -- 7 --", "0c0080000219553e73002d2d3f"),
];

const TWENTY: &str = "0c0040000119553e4441a000003f4910";

/// Words after `bacwp 1234`, with the peer before them or after them. Two spaces enclose an empty word.
static WRITES: [(&str, &str); 13] = [
    ("2 2 85 16 -1 3 -5", "0c0080000219553e31fb3f4910"),
    ("1 1 85 16 -1 4 41a00000", TWENTY),
    ("2 2 85 0 -1 7 ~x", "0c0080000219553e73007e783f"),
    ("2 2 85 0 -1 7 ~~x", "0c0080000219553e74007e7e783f"),
    ("2 2 85 0 -1 12 8:1234", "0c0080000219553ec4020004d23f"),
    ("1 1 87 1 3 0 null", "0c00400001195729033e003f4901"),
    ("2 2 85 0 -1 3 -1 3 1", "0c0080000219553e31ff31013f"),
    ("2 2 85 0 -1 7 -5", "0c0080000219553e73002d353f"),
    ("2 2 85 0 -1 7 ~-5", "0c0080000219553e74007e2d353f"),
    ("2 2 85 0 -1 6 ", "0c0080000219553e603f"),
    ("2 2 85 0 -1 7 ", "0c0080000219553e71003f"),
    ("2 2 85 0 -1 8 ", "0c0080000219553e81003f"),
    ("2 2 85 0 -1 7  7 x", "0c0080000219553e71007200783f"),
];

/// Returns whether the words of a line ask for a request to 127.0.0.1 at the port 47808, with the usual settings and
/// this body.
fn asks(alloc: Global, line: &str, body: &str) -> bool {
    let Ok(Job::Use(Tool::Read(call) | Tool::Write(call))) = parse(alloc, line) else {
        return false;
    };
    let is_usual = call.to == CONTROLLER
        && call.timeout == 3_000
        && call.retries == 3
        && call.port == 0;
    is_usual && are_digits(alloc, call.body.as_slice(), body)
}

/// Checks that the words of each row, between `front` and `back`, ask for their body.
fn all_ask<H: Abort + AllocGlobal>(rt: &H, front: &str, rows: &[(&str, &str)], back: &str) {
    for (words, body) in rows {
        let line = format!(in rt.alloc(); "{front} {words}{back}").expect(rt, "memory");
        assert!(rt; asks(rt.alloc(), line.as_str(), body), "{words}");
    }
}

#[test]
fn reads_and_writes(rt: HostRuntime) {
    let marked = "bactool bacwp --mac 127.0.0.1 1234";
    all_ask(&rt, "bactool bacrp", &READS, "");
    all_ask(&rt, marked, &WRITES, "");
    all_ask(&rt, marked, &MARKED, "");
    all_ask(&rt, "bactool bacwp 1234", &WRITES, " --mac 127.0.0.1");
}

/// Returns the length of the body of a write of this many reals.
fn body_len(alloc: Global, count: usize) -> Result<usize, Fail> {
    let mut words = Vec::new(alloc);
    for word in "bactool bacwp --mac 127.0.0.1 1234 1 1 85 16 -1".split(' ') {
        words.push(word)?;
    }
    for _ in 0..count {
        words.push("4")?;
        words.push("41a00000")?;
    }
    match parse_words(alloc, words.as_slice())? {
        Job::Use(Tool::Write(call)) => Ok(call.body.len()),
        _ => Ok(0),
    }
}

// Ninety-three reals make a body of exactly 476 octets.
#[test]
fn the_longest_body(rt: HostRuntime) -> Result<(), Fail> {
    assert!(rt; body_len(rt.alloc(), 93)? == 476);
    Ok(())
}

/// Returns whether the words ask for a request to 127.0.0.1:1 with the settings of the options.
fn has_settings(alloc: Global, line: &str) -> bool {
    let Ok(Job::Use(Tool::Read(call) | Tool::Write(call))) = parse(alloc, line) else {
        return false;
    };
    let is_to = call.to.ip == LOCALHOST && call.to.port == 1;
    is_to && call.timeout == 100 && call.retries == 1 && call.port == 50_000
}

/// Words in front of options, and words after them.
static PARTED: [(&str, &str); 6] = [
    ("bacrp", "1234 0 5 85"),
    ("bacrp 1234 0", "5 85"),
    ("bacrp 1234 0 5 85", ""),
    ("bacwp", "1234 0 5 85 0 -1 0 x"),
    ("bacwp 1234 0 5 85 0 -1 0", "x"),
    ("bacwp 1234 0 5 85 0 -1 0 x", ""),
];

#[test]
fn settings(rt: HostRuntime) {
    let options = "--apdu-timeout 100 --apdu-retries 1 --port 50000 --mac=127.0.0.1:1";
    for (front, back) in &PARTED {
        let line = format!(in rt.alloc(); "bactool {front} {options} {back}").expect(&rt, "memory");
        let line = line.as_str().trim_end();
        assert!(rt; has_settings(rt.alloc(), line), "{front}");
    }
}
