// What no clause says: that a call with ample memory does not answer want of it, and examples of each
// answer, with the bytes that are printed.
use pz_io::RoomySink;
use std::alloc::{AllocError, Global};
use std::test::Fail;
use tests_run_calls::{MODEL, TRACE, call, expect, one_file};

const LAYOUT: &str =
    "process class P init a()()\nmethods a()() skip;\ndelay 3;\nskip\nsystem\ninstances p : P\n";

// Calls the program with these words on a model of this text, and compares the status and what is
// printed.
fn expect_of(alloc: Global, line: &str, text: &str, status: u8, output: &str) -> Result<(), Fail> {
    let mut files = one_file(alloc, text, 0)?;
    expect(alloc, line, &mut files, status, output)
}

#[test]
fn a_command_line_gives_its_status_and_its_lines(rt: HostRuntime) -> Result<(), Fail> {
    let usage =
        "usage: poosl_run run MODEL | menu MODEL | replay MODEL TRACE | check MODEL | make N | ring N | watch MODEL WATCHES | drive MODEL SCRIPT | format MODEL\n";
    let rows = [
        ("run m", 0, TRACE),
        ("run m --first", 0, TRACE),
        ("run m --seed 9", 0, TRACE),
        ("run m --choices 0,0,0", 0, TRACE),
        ("run m --summary", 0, "actions 3 passes 1 clock 3 end\n"),
        (
            "run m --until 2 --summary",
            0,
            "actions 1 passes 0 clock 0 stop\n",
        ),
        ("run m --steps 0", 0, "poosl-trace 3 100000\n0 stop\n"),
        ("run m --steps 0 --units 7", 0, "poosl-trace 3 7\n0 stop\n"),
        (
            "run m --choices 1",
            5,
            "poosl-trace 3 100000\n0 refused 1 of 1\n",
        ),
        (
            "run m --choices 0,0,0,7 --summary",
            5,
            "actions 3 passes 1 clock 3 refused 7 of 0\n",
        ),
        (
            "menu m",
            0,
            "poosl-trace 3 100000\n0 stop\noffer 0 p skip 4:1\n",
        ),
        ("check m", 0, "accepted 1 processes 0 wires\n"),
        ("format m", 0, LAYOUT),
        ("run", 2, usage),
        ("run --first m", 2, usage),
        ("run m --steps 01", 2, usage),
        ("check -m", 2, usage),
        ("make 1", 2, usage),
        ("ring 1001", 2, usage),
        ("format m m", 2, usage),
        ("watch m", 2, usage),
        ("watch m w --summary", 2, usage),
        ("", 2, usage),
    ];
    for (line, status, output) in rows {
        expect_of(rt.alloc(), line, MODEL, status, output)?;
    }
    Ok(())
}

#[test]
fn a_text_may_be_laid_out_in_any_way(rt: HostRuntime) -> Result<(), Fail> {
    let same =
        "process class P // a class\r\ninit a()()\r\nmethods a()() /* its\tmethod */\r\nskip;\r\ndelay 3;\r\nskip\r\nsystem instances p : P\r\n";
    expect_of(rt.alloc(), "run m", same, 0, TRACE)?;
    Ok(())
}

#[test]
fn a_run_that_cannot_go_on_says_why(rt: HostRuntime) -> Result<(), Fail> {
    let rows = [
        (
            "process class P ports o messages o!m init a()() methods a()() o!m\nsystem instances p : P",
            1,
            "actions 0 passes 0 clock 0 deadlock\n",
        ),
        (
            "process class P variables x : Integer init a()() methods a()()\ndelay 2; x := 1 / 0\nsystem instances p : P",
            4,
            "actions 2 passes 1 clock 2 fault DivideByZero p 2:17\n",
        ),
        (
            "process class P init a()() methods a()()\n[1] skip\nsystem instances p : P",
            4,
            "actions 0 passes 0 clock 0 fault NotBoolean p 2:1\n",
        ),
    ];
    for (text, status, output) in rows {
        expect_of(rt.alloc(), "run m --summary", text, status, output)?;
    }
    Ok(())
}

#[test]
fn a_text_is_refused_with_its_kind_and_place(rt: HostRuntime) -> Result<(), Fail> {
    let rows = [
        ("process # class", "BadByte 1:9"),
        ("skip\n  /* no end", "OpenComment 2:3"),
        ("skip \"no end\n\"", "OpenString 1:6"),
        ("delay 3x", "BadNumber 1:7"),
        ("", "Syntax 1:1"),
        ("process class P;", "Syntax 1:16"),
        ("process class P methods a() skip", "Syntax 1:25"),
        (
            "process class P\ninit a()()\nmethods a()()\nskip;\ndelay 3;\nskip\nsystem instances p : Q\n",
            "C13 7:22",
        ),
        (
            "process class P\ninit b()()\nmethods a()()\nskip;\ndelay 3;\nskip\nsystem instances p : P\n",
            "C7 2:6",
        ),
        (
            "process class P\ninit a()()\nmethods a()() par skip rap\n",
            "C20 1:1",
        ),
        (
            "process class P init a()()\nmethods a()() a()()\nsystem instances p : P\n",
            "C23 2:15",
        ),
    ];
    for (text, refusal) in rows {
        let line = format!(in rt.alloc(); "model refused: {refusal}\n")?;
        expect_of(rt.alloc(), "run m --first", text, 3, line.as_str())?;
    }
    Ok(())
}

#[test]
fn a_check_counts_the_processes_and_wires_of_a_model(rt: HostRuntime) -> Result<(), Fail> {
    let rows = [
        (MODEL, 0, "accepted 1 processes 0 wires\n"),
        (
            "process class P init a()() methods a()() par skip rap system instances p : P q : P",
            0,
            "accepted 2 processes 0 wires\n",
        ),
        (
            "process class P\nports out\ninit a()()\nmethods a()() skip\nsystem instances p : P q : P\nchannels { p.out, q.out }\n",
            0,
            "accepted 2 processes 1 wires\n",
        ),
        (
            "process class P\ninit a()()\nmethods a()() skip\ncluster class C\ninstances p : P\nsystem instances c : C\n",
            0,
            "accepted 1 processes 0 wires\n",
        ),
        (
            "process class P\ninit a()()\nmethods a()() skip\ncluster class C\ninstances p : P\nsystem instances c : D\n",
            3,
            "model refused: C13 6:22\n",
        ),
    ];
    for (text, status, output) in rows {
        expect_of(rt.alloc(), "check m", text, status, output)?;
    }
    Ok(())
}

#[test]
fn a_model_may_have_eight_mebibytes_and_no_byte_more(rt: HostRuntime) -> Result<(), Fail> {
    for (length, status, output) in [(8_388_608, 0, TRACE), (8_388_609, 7, "too long: m\n")] {
        let mut files = one_file(rt.alloc(), MODEL, length)?;
        expect(rt.alloc(), "run m --first", &mut files, status, output)?;
    }
    Ok(())
}

// The literal takes all that the text has left, and is longer than what `+` may give.
#[test]
fn a_string_of_the_text_is_as_long_as_the_text_allows(rt: HostRuntime) -> Result<(), Fail> {
    let items = "a".repeat(rt.alloc(), 8_388_501)?;
    let text = format!(in rt.alloc();
        "process class P variables x : String init a()()\nmethods a()() x := \"{items}\";\nx := x + \"b\"\nsystem instances p : P\n"
    )?;
    assert_eq!(rt; text.len(), 8_388_608);
    let output = "actions 2 passes 0 clock 0 fault StoreFull p 3:8\n";
    expect_of(rt.alloc(), "run m --summary", text.as_str(), 4, output)?;
    Ok(())
}

#[test]
fn a_hundred_and_one_constructs_are_too_many(rt: HostRuntime) -> Result<(), Fail> {
    let open = "(".repeat(rt.alloc(), 101)?;
    let close = ")".repeat(rt.alloc(), 101)?;
    let text = format!(in rt.alloc(); "process class P methods a()()\n{open}skip{close}")?;
    let refusal = "model refused: TooNested 2:101\n";
    expect_of(rt.alloc(), "run m --first", text.as_str(), 3, refusal)?;
    Ok(())
}

#[test]
fn a_model_that_calls_itself_stops_after_a_thousand_actions(rt: HostRuntime) -> Result<(), Fail> {
    let text = "process class P init a()() methods a()() skip; a()() system instances p : P";
    let mut files = one_file(rt.alloc(), text, 0)?;
    let mut out = RoomySink::new(rt.alloc(), 100_000, Vec::new(rt.alloc()))?;
    assert_eq!(rt; call(rt.alloc(), "run m --first", &mut files, &mut out)?, 0);
    assert!(rt; out.bytes().ends_with("0 stop\n".as_bytes()));
    assert_eq!(rt; out.bytes().iter().filter(|b| **b == b'\n').count(), 1002);
    Ok(())
}

// A model whose first method begins with a call of the next, and so on, so many times; something stands behind
// each call, and the last method is given.
fn chain(alloc: Global, calls: u64, behind: &str, last: &str) -> Result<String, AllocError> {
    let mut text = String::from_str(alloc, "process class P\ninit m0()()\nmethods\n")?;
    for number in 0..calls {
        let method = format!(in alloc;
            "m{number}()() m{}()(){behind}\n",
            number.saturating_add(1)
        )?;
        text.push_str(method.as_str())?;
    }
    let end = format!(in alloc; "m{calls}()() {last}\nsystem instances p : P\n")?;
    text.push_str(end.as_str())?;
    Ok(text)
}

// Calls that are all that is left of their methods open as one frame. With something behind it each adds two
// to the height of the term: a frame and a sequence.
#[test]
fn methods_open_as_far_as_a_term_may_be_high(rt: HostRuntime) -> Result<(), Fail> {
    let rows = [
        (
            9_999,
            "",
            "skip",
            "run m",
            0,
            "poosl-trace 3 100000\n0 1 0 p skip 10003:11\n0 end\n",
        ),
        (
            9_999,
            "; skip",
            "skip",
            "run m",
            4,
            "poosl-trace 3 100000\n0 high p 2:6\n",
        ),
        (
            499,
            "; skip",
            "skip",
            "run m --summary",
            0,
            "actions 500 passes 0 clock 0 end\n",
        ),
        (
            499,
            "; skip",
            "[true] skip",
            "run m --summary",
            4,
            "actions 0 passes 0 clock 0 high p 2:6\n",
        ),
    ];
    for (calls, behind, last, line, status, output) in rows {
        let text = chain(rt.alloc(), calls, behind, last)?;
        expect_of(rt.alloc(), line, text.as_str(), status, output)?;
    }
    Ok(())
}
