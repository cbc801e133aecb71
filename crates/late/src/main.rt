// The areas of an order file, given on standard input, with late claims behind it. All that it does stands in `program`; how that ended is
// told on standard error, and is left here. service/late.c is the same program with an exit status.
#![tactic(auto)]

fn main(rt: HostRuntime) {
    let _ = program::late(&mut rt.stdin(), &mut rt.stdout(), &rt);
}
