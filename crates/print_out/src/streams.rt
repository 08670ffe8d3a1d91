// Standard input, output and error of the runtime that a program is given.
use std::io::{Read, Stderr, Stdin, Stdout};

// None of them keeps bytes back: a call of `input` reads on where the last one stopped, and what is written is out.
pub trait Streams {
    type Input: Read + Drop;

    type Output: Print + Drop;

    type Errors: Print + Drop;

    fn input(&self) -> Self::Input;

    fn output(&self) -> Self::Output;

    fn errors(&self) -> Self::Errors;
}

impl Streams for HostRuntime {
    type Input = Stdin;

    type Output = Stdout;

    type Errors = Stderr;

    fn input(&self) -> Stdin {
        self.stdin()
    }

    fn output(&self) -> Stdout {
        self.stdout()
    }

    fn errors(&self) -> Stderr {
        self.stderr()
    }
}
