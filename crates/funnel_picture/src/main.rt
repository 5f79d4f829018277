//! The program that draws a replay: its words, its trace, its streams and its status.
#![tactic(auto)]

mod files;
mod words;

use edge_io::{StdSink, StdSource};
use files::FileSource;
use picture_run::{run, tell, trace_path};
use std::process::ExitCode;
use words::gather_words;

fn main(rt: HostRuntime) -> ExitCode {
    let mut err = StdSink::err(rt);
    let status = match gather_words(&rt, rt.alloc()) {
        Ok(words) => {
            let mut trace = FileSource::new(rt, trace_path(&words));
            let mut report = StdSource::new(rt);
            let mut out = StdSink::out(rt);
            run(
                rt.alloc(),
                &words,
                &mut trace,
                &mut report,
                &mut out,
                &mut err,
            )
        }
        Err(ending) => {
            tell(&mut err, ending);
            ending.status()
        }
    };
    ExitCode::from(status)
}
