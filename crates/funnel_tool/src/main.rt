//! The tool: its words, its streams and its status.
#![tactic(auto)]

mod words;

use edge_io::{StdSink, StdSource};
use std::process::ExitCode;
use tool_run::{OpenGate, run, tell};
use words::gather_words;

fn main(rt: HostRuntime) -> ExitCode {
    let mut err = StdSink::err(rt);
    let status = match gather_words(&rt, rt.alloc()) {
        Ok(words) => {
            let mut source = StdSource::new(rt);
            let mut out = StdSink::out(rt);
            run(
                &rt,
                rt.alloc(),
                &words,
                &mut source,
                &mut out,
                &mut err,
                &OpenGate,
            )
            .status
        }
        Err(ending) => {
            tell(&mut err, ending);
            ending.status()
        }
    };
    ExitCode::from(status)
}
