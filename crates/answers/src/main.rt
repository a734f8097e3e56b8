// The program `answers`: a request stream on standard input, its answers and the stop code on standard output. The stored case is erf of 6
// and lgamma_r of 1.
#![tactic(auto)]

fn main(rt: HostRuntime) {
    serve::run(rt.stdin(), rt.stdout());
}
