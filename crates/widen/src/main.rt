// Reads a file of the narrow edition from standard input, and prints it in the wide edition, or the refusal.
#![tactic(auto)]

use input::Page;
use program::Job;
use std::process::ExitCode;

const PAGE: Page = Page {
    name: "widen",
    usage: "usage: widen < FILE",
    help: "usage: widen < FILE

Prints a file of the older edition, with predicate references of 2 bytes, in
this one, or the line 0f with the number of the refusal.
",
};

fn main(rt: HostRuntime) -> ExitCode {
    let request = input::requested(&rt, Some(0));
    program::run(
        &rt,
        request,
        &PAGE,
        &mut rt.stdin(),
        &mut rt.stdout(),
        Job::Widen,
    )
}
