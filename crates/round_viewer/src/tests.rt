// Requests and other inputs, with what is shown for them.
use crate::view::view;
use std::alloc::Global;
use std::process::Abort;
use std::test::Fail;

// The hex digits of the state of zeros but one.
const ZEROS: &str =
    "00000000000000000000000000000000000000000000000000000000000000000000000000000000000000000000000";

fn check_shown(rt: &impl Abort, heap: Global, input: &str, lines: &str) -> Result<(), Fail> {
    let text = view(input.as_bytes()).to_string(heap)?;
    assert!(rt; text.as_str() == lines, "{}", text.as_str());
    Ok(())
}

// The zeros between a front and a back are no request.
fn check_refused(rt: &impl Abort, heap: Global, front: &str, back: &str) -> Result<(), Fail> {
    let input = format!(in heap; "{front}{ZEROS}{back}")?;
    check_shown(rt, heap, input.as_str(), "refused 11\n")
}

#[test]
fn shows_all_rounds(rt: HostRuntime) -> Result<(), Fail> {
    let input = format!(in rt.alloc(); "24 0{ZEROS}\n")?;
    let lines =
        "6467d8c4 07dcf83b 3b0bb0d4 1b21364c\n083431dc 0efbbe8e 0054e884 648bd955\n4a5db42e ca0641cb 8673d2c2 2e30d809\n";
    check_shown(&rt, rt.alloc(), input.as_str(), lines)
}

#[test]
fn shows_one_round(rt: HostRuntime) -> Result<(), Fail> {
    let input =
        "01 d0d1d2d3d4d5d6d7d8d9dadbdcdddedfe0e1e2e3e4e5e6e7e8e9eaebecedeeeff0f1f2f3f4f5f6f7f8f9fafbfcfdfeff\n";
    let lines =
        "8214430b 302f363f c4fbe2cb a8b7aea7\nf2f7f4f4 f6f3f0f0 fafffcfc fefbf8f8\n303d3631 2c313a2d 68656e69 54494255\n";
    check_shown(&rt, rt.alloc(), input, lines)
}

#[test]
fn refuses_99_and_101_bytes(rt: HostRuntime) -> Result<(), Fail> {
    check_refused(&rt, rt.alloc(), "24 ", "\n")?;
    check_refused(&rt, rt.alloc(), "24 00", "\n")
}

#[test]
fn refuses_0_and_25_rounds(rt: HostRuntime) -> Result<(), Fail> {
    check_refused(&rt, rt.alloc(), "00 0", "\n")?;
    check_refused(&rt, rt.alloc(), "25 0", "\n")
}

#[test]
fn refuses_an_upper_case_digit(rt: HostRuntime) -> Result<(), Fail> {
    check_refused(&rt, rt.alloc(), "24 A", "\n")
}

#[test]
fn refuses_a_missing_newline(rt: HostRuntime) -> Result<(), Fail> {
    check_refused(&rt, rt.alloc(), "24 0", "")?;
    check_refused(&rt, rt.alloc(), "24 0", " ")
}
