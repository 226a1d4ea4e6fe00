// Reads standard input, and prints the answer or the refusal.
#![tactic(auto)]

use input::Page;
use program::Job;
use std::process::ExitCode;

const PAGE: Page = Page {
    name: "sigla",
    usage: "usage: sigla < FILE",
    help: "usage: sigla < FILE

Types the queries of a file of frames and prints the answer, or the line 0f with
the number of the refusal.
",
};

fn main(rt: HostRuntime) -> ExitCode {
    let request = input::requested(&rt, Some(0));
    program::run(
        &rt,
        request,
        &PAGE,
        &mut rt.stdin(),
        &mut rt.stdout(),
        Job::Check,
    )
}
