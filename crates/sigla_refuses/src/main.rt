// The program `sigla` once more, run on a file of one byte more than a file may have: refusal 2.
#![tactic(auto)]

use input::Page;
use program::Job;
use std::process::ExitCode;

const PAGE: Page = Page {
    name: "sigla_refuses",
    usage: "usage: sigla_refuses < FILE",
    help: "usage: sigla_refuses < FILE

Types the queries of a file of frames as sigla does.
",
};

fn main(rt: HostRuntime) -> ExitCode {
    let request = input::requested(&rt, Some(0));
    program::run(
        &rt,
        request,
        &PAGE,
        &mut rt.stdin(),
        &mut rt.stdout(),
        Job::Check,
    )
}
