// The program `lines`: requests as text on standard input, a reply line for each line on standard output. The stored case has a line of every
// name, and bad ones.
#![tactic(auto)]

fn main(rt: HostRuntime) {
    console::run(rt.stdin(), rt.stdout());
}
