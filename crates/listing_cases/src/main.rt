// Lists the recordings and streams of data/ one after another, each behind its name: good ones, and bad ones of every kind.
#![tactic(auto)]

use receiver::Receiver;
use window::Source;

// Standard output's descriptor.
const STDOUT_FILENO: i32 = 1;

// The file of that name, its name printed; none if there is none, which is told.
fn opened(rt: &HostRuntime, name: &[u8]) -> Option<Source> {
    io::write_all(STDOUT_FILENO, name);
    io::write_all(STDOUT_FILENO, b":\n");
    match window::open(rt, name) {
        Ok(file) => Some(Source::Named(file)),
        Err(why) => {
            telling::explain(name, why);
            None
        }
    }
}

// Lists the recording in the file of that name.
fn listed(rt: &HostRuntime, name: &[u8]) {
    if let Some(file) = opened(rt, name) {
        decode_run::run(b"listings", &file);
    }
}

// Lists the KISS stream in the file of that name.
fn kiss(rt: &HostRuntime, name: &[u8], t: u8) {
    if let Some(file) = opened(rt, name) {
        let begun = Receiver::kiss(t);
        let receiver = begun.receiver;
        decode_run::run_stream(b"listings", &file, receiver);
    }
}

// Lists the raw bits in the file of that name.
fn bits(rt: &HostRuntime, name: &[u8], t: u8) {
    if let Some(file) = opened(rt, name) {
        let begun = Receiver::bits(t);
        let receiver = begun.receiver;
        decode_run::run_stream(b"listings", &file, receiver);
    }
}

// The recordings that are good.
fn good(rt: &HostRuntime) {
    listed(rt, b"the-case");
    listed(rt, b"no-frames");
    listed(rt, b"length-1024");
    listed(rt, b"length-0");
    listed(rt, b"bad-packet");
    listed(rt, b"address");
    listed(rt, b"every-number");
    listed(rt, b"long");
    listed(rt, b"second-channel");
    listed(rt, b"first-and-last");
}

// The recordings that are bad.
fn bad(rt: &HostRuntime) {
    listed(rt, b"empty-input");
    listed(rt, b"first-count-2");
    listed(rt, b"t-9");
    listed(rt, b"cut-in-settings");
    listed(rt, b"cut-in-count");
    listed(rt, b"cut-in-length");
    listed(rt, b"cut-in-frame");
    listed(rt, b"octets-after");
    listed(rt, b"length-1025");
}

// KISS streams.
fn kiss_streams(rt: &HostRuntime) {
    kiss(rt, b"kiss-nothing", 0);
    kiss(rt, b"kiss-no-c0", 0);
    kiss(rt, b"kiss-the-case", 0);
    kiss(rt, b"kiss-every-number", 3);
    kiss(rt, b"kiss-refused", 0);
    kiss(rt, b"kiss-empty", 0);
    kiss(rt, b"kiss-order-19-10", 0);
    kiss(rt, b"kiss-short", 0);
    kiss(rt, b"kiss-never-11", 0);
    kiss(rt, b"kiss-header", 0);
    kiss(rt, b"kiss-t-8", 8);
    kiss(rt, b"kiss-octets-272-273", 0);
    kiss(rt, b"kiss-octets-65557", 0);
    kiss(rt, b"kiss-octets-65557-escaped", 0);
    kiss(rt, b"kiss-octets-70000-cut", 0);
    kiss(rt, b"kiss-before-and-after", 0);
}

// Recordings of raw bits.
fn raw_bits(rt: &HostRuntime) {
    bits(rt, b"bits-nothing", 0);
    bits(rt, b"bits-no-flag", 0);
    bits(rt, b"bits-the-case", 0);
    bits(rt, b"bits-every-number", 3);
    bits(rt, b"bits-the-case-shifted", 0);
    bits(rt, b"bits-empty-stretches", 0);
    bits(rt, b"bits-abandoned-and-odd", 0);
    bits(rt, b"bits-order-16-10", 0);
    bits(rt, b"bits-check", 0);
    bits(rt, b"bits-t-8", 8);
    bits(rt, b"bits-t-5-wrong", 5);
    bits(rt, b"bits-flag-missing", 0);
    bits(rt, b"bits-octets-275", 0);
    bits(rt, b"bits-octets-276-and-a-bit", 0);
    bits(rt, b"bits-octets-276-abandoned", 0);
    bits(rt, b"bits-octets-8215", 0);
    bits(rt, b"bits-octets-65559", 0);
    bits(rt, b"bits-octets-8215-abandoned", 0);
    bits(rt, b"bits-before-65559", 0);
    bits(rt, b"bits-after-65559", 0);
}

fn main(rt: HostRuntime) {
    good(&rt);
    bad(&rt);
    kiss_streams(&rt);
    raw_bits(&rt);
}
