// What is told on standard error while a file is read: nothing, or a line in every second.
use std::io::Seek;
use std::rt::Clock;

// Whether lines are wanted, the bytes of the file, if they are known, and the second of the last line.
#[derive(Clone, Copy, Debug, PartialEq, Eq)]
pub struct Watch {
    pub wanted: bool,
    pub bytes: Option<u64>,
    pub second: Option<u64>,
}

// None of a clock that can't be read.
fn second_now(rt: &impl Clock) -> Option<u64> {
    let time = rt.since_1970().ok()?;
    Some(time.as_secs())
}

// The same, from now on.
pub(crate) fn begun(rt: &impl Clock, w: Watch) -> Watch {
    Watch {
        second: second_now(rt),
        ..w
    }
}

// After a block: a line, if the clock shows another second than at the line before.
pub(crate) fn tell<S: Seek>(
    rt: &(impl Clock + Eprint),
    w: Watch,
    input: &mut S,
    samples: usize,
) -> Watch {
    if !w.wanted {
        return w;
    }
    let second = second_now(rt);
    if second == w.second {
        return w;
    }
    put_samples(rt, samples as u64, place_in(input), w.bytes);
    Watch { second, ..w }
}

// How far a file is read, 0 where the system doesn't say.
fn place_in<S: Seek>(input: &mut S) -> u64 {
    input.stream_position().unwrap_or(0)
}

// A line that can't be written is lost, and nothing else.
fn put_samples(rt: &impl Eprint, samples: u64, place: u64, bytes: Option<u64>) {
    let _ = match bytes {
        None | Some(0) => eprintln!(rt; "samples so far: {samples}"),
        Some(bytes) => {
            let hundredths = percent(place, bytes);
            eprintln!(rt; "samples so far: {samples} ({hundredths} %)")
        }
    };
}

// How many hundredths of the whole a part is; of one that has outgrown it, 100.
fn percent(part: u64, whole: u64) -> u64 {
    (part / (whole / 100 + 1)).min(100)
}
