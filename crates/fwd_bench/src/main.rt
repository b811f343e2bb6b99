//! Measures how fast events are encoded and decoded, lines become events, forward messages are read,
//! chunk files are appended to, read and loaded, and batches are filtered. `bench/values`, `bench/lines`,
//! `bench/forward`, `bench/chunks` and `bench/filters` run it; without words it prints its usage.
#![tactic(auto)]

mod chunks;
mod filters;
mod forward;
mod lines;
mod loading;
mod values;

use std::{env, io};

/// What is measured.
#[derive(Clone, Copy)]
enum Measured {
    Values,
    Lines,
    Forward,
    Chunks,
    Reading,
    Loading,
    Filters,
}

/// What is measured, over how many items, and how many times.
#[derive(Clone, Copy)]
struct Measure {
    what: Measured,
    count: u32,
    turns: u32,
}

fn measured_of(word: &str) -> Option<Measured> {
    match word {
        "values" => Some(Measured::Values),
        "lines" => Some(Measured::Lines),
        "forward" => Some(Measured::Forward),
        "chunks" => Some(Measured::Chunks),
        "reading" => Some(Measured::Reading),
        "loading" => Some(Measured::Loading),
        "filters" => Some(Measured::Filters),
        _ => None,
    }
}

fn measure_of(words: &[String]) -> Option<Measure> {
    match words {
        [what, count, turns] => Some(Measure {
            what: measured_of(what.as_str())?,
            count: count.as_str().parse().ok()?,
            turns: turns.as_str().parse().ok()?,
        }),
        _ => None,
    }
}

fn main(rt: HostRuntime) -> io::Result<()> {
    let mut words = Vec::new(rt.alloc());
    for word in env::args(&rt)?.skip(1) {
        words.push(word)?;
    }
    let Some(measure) = measure_of(&words) else {
        return rt.println(
            "fwd_bench values|lines|forward|chunks|reading|loading|filters COUNT TURNS",
        );
    };
    match measure.what {
        Measured::Values => values::measure(&rt, measure.count, measure.turns),
        Measured::Lines => lines::measure(&rt, measure.count, measure.turns),
        Measured::Forward => forward::measure(&rt, measure.count, measure.turns),
        Measured::Chunks => chunks::measure(&rt, measure.count, measure.turns),
        Measured::Reading => chunks::measure_reading(&rt, measure.count, measure.turns),
        Measured::Loading => loading::measure(&rt, &rt, measure.count, measure.turns),
        Measured::Filters => filters::measure(&rt, &rt, measure.count, measure.turns),
    }
}
