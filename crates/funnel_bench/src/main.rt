//! Additions of 1 by one, two and four threads at once: through a funnel with a pass for each thread, by one fetch-and-add of a word each, and under a lock. It prints the value that they leave; where it is given a number of additions for each thread, how long a call took, how many in 100 of the funnel's went past it, and how many times as long as on the word and under the lock a call of the funnel took.
#![tactic(auto)]

mod rounds;

use rounds::{Ground, Made, Round};
use std::io::Print;
use std::time::Instant;
use std::{env, io};

const FEW: u32 = 100;

fn main(rt: HostRuntime) -> Result<(), anyhow::Error> {
    let words: Vec<String> = env::args(&rt)?.skip(1).collect(rt.alloc())?;
    let asked: Option<u32> = match words.first() {
        Some(word) => Some(word.as_str().parse()?),
        None => None,
    };
    for threads in [1, 2, 4] {
        let times = asked.unwrap_or(FEW);
        let round = Round { threads, times };
        let mut funnelled = 0u64;
        for ground in [Ground::Funnel, Ground::Word, Ground::Lock] {
            let start = Instant::now(&rt)?;
            let made = round.run(&rt, rt.alloc(), ground)?;
            let tenths = round.tenths(start.elapsed(&rt)?);
            let Some(_) = asked else {
                println!(rt;
                    "{name} {threads}: {value}",
                    name = ground.name(),
                    value = made.value
                )?;
                continue;
            };
            match ground {
                Ground::Funnel => {
                    funnelled = tenths;
                    tell_funnel(&rt, round, made, tenths)?;
                }
                Ground::Word | Ground::Lock => tell_other(&rt, round, ground, tenths, funnelled)?,
            }
        }
    }
    Ok(())
}

// How long a call of the funnel took, in tenths of a nanosecond, and how many went past it.
fn tell_funnel<R: Print>(rt: &R, round: Round, made: Made, tenths: u64) -> io::Result<()> {
    let (threads, past) = (round.threads, round.percent(made.past));
    let (whole, tenth) = (tenths / 10, tenths % 10);
    println!(rt; "funnel {threads}: {whole}.{tenth} ns a call, {past} in 100 past the funnel")
}

// How long a call took on another ground, and how many times as long the funnel's.
fn tell_other<R: Print>(
    rt: &R,
    round: Round,
    ground: Ground,
    tenths: u64,
    funnelled: u64,
) -> io::Result<()> {
    let (name, threads) = (ground.name(), round.threads);
    let (whole, tenth) = (tenths / 10, tenths % 10);
    let ratio = funnelled.saturating_mul(10) / tenths.max(1);
    let (times, part) = (ratio / 10, ratio % 10);
    println!(rt;
        "{name} {threads}: {whole}.{tenth} ns a call, the funnel's takes {times}.{part} times as long"
    )
}
