// Reads a file of the wide edition from standard input, and prints it in the narrow edition, or the refusal.
#![tactic(auto)]

use input::Page;
use program::Job;
use std::process::ExitCode;

const PAGE: Page = Page {
    name: "narrow",
    usage: "usage: narrow < FILE",
    help: "usage: narrow < FILE

Prints a file in the older edition, with predicate references of 2 bytes, or the
line 0f with the number of the refusal.
",
};

fn main(rt: HostRuntime) -> ExitCode {
    let request = input::requested(&rt, Some(0));
    program::run(
        &rt,
        request,
        &PAGE,
        &mut rt.stdin(),
        &mut rt.stdout(),
        Job::Narrow,
    )
}
