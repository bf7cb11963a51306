// The marked examples of document 01 on lines, P1 to P6, run through the library: the file `stdout` beside this folder has what document 01 says.
#![tactic(auto)]

use answer::Answer;

// A write that fails is passed over: then what is printed is not `stdout`.
fn show_values(rt: &impl Print, values: &[u8]) {
    for value in values {
        let _ = print!(rt; " {value}");
    }
    let _ = println!(rt);
}

// Prints a call's answer, its number and figure, and the values that it left.
fn show<A: Into<Answer>>(rt: &impl Print, name: &str, outcome: A, values: &[u8]) {
    let Answer { number, figure } = outcome.into();
    let _ = print!(rt; "{name}\t{number}\t{figure}\t");
    show_values(rt, values);
}

// The line 3 5 5 2 4 opened with windows of `length` pixels.
fn opened(rt: &impl Print, name: &str, length: usize) {
    let line = [3, 5, 5, 2, 4];
    let mut result = [9u8; 5];
    let mut scratch = [0u8; 40];
    let a = line::open_line(&line, length, &mut result, &mut scratch);
    show(rt, name, a, &result);
}

// P6: eroded with 2, and that dilated with 2, which is P2.
fn eroded_and_dilated(rt: &impl Print) {
    let line = [3, 5, 5, 2, 4];
    let mut eroded = [9u8; 4];
    let a = line::erode(&line, 2, &mut eroded);
    show(rt, "P6 eroded", a, &eroded);
    let mut dilated = [9u8; 5];
    let b = line::dilate(&eroded, 2, &mut dilated);
    show(rt, "P6 dilated", b, &dilated);
}

fn main(rt: HostRuntime) {
    for (name, length) in [("P1", 1), ("P2", 2), ("P3", 3), ("P4", 5), ("P5", 6)] {
        opened(&rt, name, length);
    }
    eroded_and_dilated(&rt);
}
