// The small program: it reads raw code from standard input, under the paper's layout, and writes one
// line.
#![tactic(auto)]

mod line;
mod program;

fn main(rt: HostRuntime) {
    program::run(&rt);
}
