// The report of an order file that is given on standard input. All that it does stands in `program`; how that ended is told on standard
// error, and is left here. service/report.c is the same program with an exit status.
#![tactic(auto)]

fn main(rt: HostRuntime) {
    let _ = program::report(&mut rt.stdin(), &mut rt.stdout(), &rt);
}
