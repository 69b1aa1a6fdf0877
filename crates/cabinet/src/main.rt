// The program: the commands of standard input are performed on an image of zero bytes, and standard output gets their
// listing. It takes no argument: with one it says how it is used, and performs nothing.
#![tactic(auto)]

use std::env::{Env, FillError};

// Whether an argument follows the program's name.
fn has_argument(rt: &HostRuntime) -> bool {
    let mut start = [0u8; 1];
    !matches!(rt.arg(1, &mut start), Err(FillError::NotPresent))
}

fn main(rt: HostRuntime) {
    if has_argument(&rt) {
        let _ = eprintln!(rt; "usage: cabinet < COMMANDS > LISTING");
        return;
    }
    let mut image = [0u8; 21248];
    let listed = console::run(&mut image, &mut rt.stdin(), &mut rt.stdout());
    if let Err(failure) = listed {
        let _ = eprintln!(rt; "cabinet: {failure}");
    }
}
