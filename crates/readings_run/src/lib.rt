// Readings of a recording: every (3,25) packet that is handed out is read by the layout for its APID and SID, and each value is one line of
// CSV with the packet's first and last arrival numbers. What is refused is counted.
#![tactic(auto)]

ghost use Rattle.std.specs.Prelude.{◌≡◌, slice_set};

use loading::Loaded;
use receiver::Receiver;

mod loading;

// Writes the readings of what comes by a descriptor to a receiver of which nothing is read yet, by the layouts in the file at path, to
// standard output, and answers the exit status. What fails, and then what was refused, is told on standard error, behind the program's
// name.
pub fn run(
    rt: &HostRuntime,
    name: &[u8],
    path: &[u8],
    descriptor: &window::Source,
    fresh: Receiver,
) -> i32 {
    let mut text = io::large_buffer();
    match loading::load(rt, name, path, &mut text) {
        Loaded::Wrong => window::AGAINST,
        Loaded::Failed => window::BROKEN,
        Loaded::Text(size) => given(name, path, octets::part(&text, 0, size), descriptor, fresh),
    }
}

// The same with the file's text.
fn given(
    name: &[u8],
    path: &[u8],
    text: &[u8],
    descriptor: &window::Source,
    fresh: Receiver,
) -> i32 {
    let mut apids = [0u16; layouts::LAYOUTS];
    let mut sids = [0u8; layouts::LAYOUTS];
    let mut starts = [0usize; layouts::LAYOUTS + 1];
    let mut codes = [0u16; layouts::ENTRIES];
    let mut froms = [0usize; layouts::ENTRIES];
    let mut tos = [0usize; layouts::ENTRIES];
    match layouts::read(
        text,
        &mut apids,
        &mut sids,
        &mut starts,
        &mut codes,
        &mut froms,
        &mut tos,
    ) {
        Err((line, fault)) => {
            loading::wrong(name, path, line, fault);
            window::AGAINST
        }
        Ok((n, entries)) => {
            end_last(&mut starts, n, entries);
            if loading::unusable(name, path, text, &starts, n, &froms, &tos) {
                return window::AGAINST;
            }
            recording(
                name, descriptor, text, &apids, &sids, &starts, n, &codes, &froms, &tos, fresh,
            )
        }
    }
}

// The last layout ends with the entries.
fn end_last(starts: &mut [usize], n: usize, entries: usize)
    ensures { starts.new ≡ slice_set starts.old n entries }
{
    if n < starts.len() {
        starts[n] = entries;
    }
}

// Takes the recording, writes its readings, and tells what was refused, unless a write failed. It answers the exit status.
fn recording(
    name: &[u8],
    descriptor: &window::Source,
    text: &[u8],
    apids: &[u16],
    sids: &[u8],
    starts: &[usize],
    n: usize,
    codes: &[u16],
    froms: &[usize],
    tos: &[usize],
    fresh: Receiver,
) -> i32 {
    let mut counts = [0u64; readings_frame::COUNTS];
    let mut out = io::large_buffer();
    let mut input = io::large_buffer();
    let stopped = readings_turn::report(
        name,
        descriptor,
        &mut input,
        text,
        apids,
        sids,
        starts,
        n,
        codes,
        froms,
        tos,
        &mut out,
        &mut counts,
        fresh,
    );
    if !stopped.failed() {
        readings_frame::told(name, &counts);
    }
    stopped.status()
}
