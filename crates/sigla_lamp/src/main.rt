// Reads standard input, and prints whether a query of the file has a diagnostic, or the refusal.
#![tactic(auto)]

use input::Page;
use std::process::ExitCode;

const PAGE: Page = Page {
    name: "sigla_lamp",
    usage: "usage: sigla_lamp < FILE",
    help: "usage: sigla_lamp < FILE

Prints whether a query of a file has a diagnostic: the line 0d01 or 0d00, or
the line 0f with the number of the refusal.
",
};

fn main(rt: HostRuntime) -> ExitCode {
    let request = input::requested(&rt, Some(0));
    program::run_lamp(&rt, request, &PAGE, &mut rt.stdin(), &mut rt.stdout())
}
